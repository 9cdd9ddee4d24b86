// No code: specs/ says what demand 3 says, and proofs/ that every run and every row of steps meets it.
#![tactic(auto)]
