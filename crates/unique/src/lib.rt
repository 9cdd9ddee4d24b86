// No code: specs/ says what it means that a contract settles its answer, for the theorems of the other crates.
#![tactic(auto)]
