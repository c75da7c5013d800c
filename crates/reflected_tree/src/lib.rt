// A reflected tree of the old product (RULES.md, 20), as definitions: how it is read, which list is written for it, and when a group is a subgroup
// of another. It has no code; `reflected` reads and writes.
#![tactic(auto)]
