// What the program prints, line by line, and its laws. No code.
#![tactic(auto)]
