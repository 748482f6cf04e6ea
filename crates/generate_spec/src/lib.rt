// Definitions and laws on tables that are drawn from a seed. No code.
#![tactic(auto)]
