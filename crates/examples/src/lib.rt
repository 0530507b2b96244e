// The worked examples of the requirement, computed over the definitions: no code.
#![tactic(auto)]
