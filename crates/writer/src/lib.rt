// A bundle's bytes from its slots' contents: the definition, and its laws. No code.
#![tactic(auto)]
