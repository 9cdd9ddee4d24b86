// No code: specs/ and proofs/ say that three errors of document 01 break demand 3.
#![tactic(auto)]
