// Two tables compared: definitions and theorems; the code is the crate `fit`.
#![tactic(auto)]
