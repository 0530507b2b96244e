// The theorem that the forecast is what a session comes to is about something: a run computed. No code.
#![tactic(auto)]
