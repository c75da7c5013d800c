// What windows say on a day (RULES.md, 10), and the sentence of renewals that follow on, day by day.
// Definitions and laws alone; crate dating has the code.
#![tactic(auto)]
