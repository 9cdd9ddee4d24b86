// No code: specs/ and proofs/ say that start gives sound worlds and that steps keep them so.
#![tactic(auto)]
