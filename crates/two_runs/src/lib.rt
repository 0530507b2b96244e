// Two runs that are lent the same but for the image set: specs/Claim has the claim, specs/Alike when two sets are alike to a run, proofs/Theorem the theorems.
// No code.
#![tactic(auto)]
