// Definitions and laws on reducing several tables with shared guesses. No code.
#![tactic(auto)]
