// The check of a state map: definitions and laws. No code.
#![tactic(auto)]
