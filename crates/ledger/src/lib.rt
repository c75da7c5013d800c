// The paper ledger (RULES.md, 15) and demand 3.
// Definitions and proofs alone.
#![tactic(auto)]
