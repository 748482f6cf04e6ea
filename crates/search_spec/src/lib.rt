// The search over clause words: what is refused, definitions and laws. No code.
#![tactic(auto)]
