// The theorem over the definitions: no code.
#![tactic(auto)]
