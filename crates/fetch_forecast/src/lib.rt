// The forecast held against what a session comes to: specs/Claim has the claim, proofs/Theorem the theorem. No code.
#![tactic(auto)]
