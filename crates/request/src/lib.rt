// Requests (RULES.md, 5 to 7): what their bytes say, the two sequences of a forest, and when a request is accepted.
// Definitions and laws, and the entry that both definitions and code speak of; crate reading has the code.
#![tactic(auto)]

// An entry as it is read: id, quota, number of children; and the position after it.
#[derive(Clone, Copy)]
pub struct EntryRead {
    pub id: u32,
    pub quota: u32,
    pub children: u32,
    pub next: usize,
}
