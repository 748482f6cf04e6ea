// Definitions and laws on visibly pushdown automata, given by relations over any type of states. No code.
#![tactic(auto)]
