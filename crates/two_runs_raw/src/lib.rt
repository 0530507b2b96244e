// Two runs through the C interface, and examples of the theorem and of the law, computed. No code.
#![tactic(auto)]
