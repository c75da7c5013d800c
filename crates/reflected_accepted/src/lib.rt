// A reflected tree's list in the table (RULES.md, 20.3), as theorems: every request of it is accepted, and the table's order is Table 2. It has no code.
#![tactic(auto)]
