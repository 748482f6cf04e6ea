// Definitions and laws on lists that the other crates cite. No code.
#![tactic(auto)]
