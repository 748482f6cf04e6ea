// Clauses over numbered variables, the search that document 01 defines, and its laws. No code.
#![tactic(auto)]
