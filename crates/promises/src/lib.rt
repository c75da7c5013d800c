// What an accepted request promises of the table's rows after it (RULES.md, 7). Theorems on the definition of refine alone.
#![tactic(auto)]
