// The quotient of a table under a map: definitions and laws. No code.
#![tactic(auto)]
