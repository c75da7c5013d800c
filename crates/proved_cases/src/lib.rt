// The worked examples that document 01 marks P, as theorems on the definitions.
// Definitions and proofs alone; the crates run_* are the test programs.
#![tactic(auto)]
