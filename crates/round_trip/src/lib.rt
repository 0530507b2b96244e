// What is built is decoded as what was meant: theorems over the definitions, no code.
#![tactic(auto)]
