// Refine accepts each small request from a fresh group 1 of that quota (RULES.md, 19). Definitions and laws alone.
#![tactic(auto)]
