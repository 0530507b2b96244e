// The theorem through the C interface: no code.
#![tactic(auto)]
