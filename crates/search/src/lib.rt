// What a search over places means, and its laws, are in specs/ and proofs/; no code is here.
#![tactic(auto)]
