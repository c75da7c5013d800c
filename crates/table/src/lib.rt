// The table (RULES.md, 3): four lent columns of 32-bit numbers id, l, r, q, and a count of the rows in use.
#![tactic(auto)]

mod checking;
mod columns;
mod finding;
mod in_use;

pub use checking::check_columns;
pub use columns::{count_bad, lengths_bad};
pub use finding::place_of;
pub use in_use::{RowIter, RowsInUse};

// A group's row: its id, its l-value, its r-value and its quota.
#[derive(Clone, Copy)]
pub struct Row {
    pub id: u32,
    pub l: u32,
    pub r: u32,
    pub q: u32,
}
