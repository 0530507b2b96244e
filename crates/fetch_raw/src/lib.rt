// Demand 3 through the C interface: specs/Calls has the host, proofs/Theorem the theorem.
#![tactic(auto)]
