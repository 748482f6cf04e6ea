// Reading a script: definitions and laws. No code.
#![tactic(auto)]
