// The theorem about lists of steps is about something, and false of wrong hosts: examples computed. No code.
#![tactic(auto)]
