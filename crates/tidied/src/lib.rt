// The tidy form of an image set: its definition, its laws and what is claimed of it. The code is in crate tidy.
#![tactic(auto)]
