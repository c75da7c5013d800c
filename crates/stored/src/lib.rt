// The stored table (RULES.md, 11): its bytes, what they read in as, and the two round trips.
// Definitions and laws, and the row that is read; crates store and load have the code.
#![tactic(auto)]

use table::Row;

// A row that stands in bytes, and the position after it.
#[derive(Clone, Copy)]
pub struct RowRead {
    pub row: Row,
    pub next: usize,
}
