// No code: specs/ and proofs/ say what document 01's cases print.
#![tactic(auto)]
