// No code: proofs/ says demand 3 of what `run` returns, against its contract.
#![tactic(auto)]
