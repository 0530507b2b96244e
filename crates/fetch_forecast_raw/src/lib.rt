// The forecast held against what a run of C calls comes to: specs/Exported has the claim, proofs/Exported the theorem. No code.
#![tactic(auto)]
