// Refine (RULES.md, 7): a group is exploded into the entries of a request.
#![tactic(auto)]

mod placing;
mod refining;

pub use refining::refine;
use table::Row;

// A request that a table accepts: the exploded id, its row and what stands there, the row after those in use, and the number of entries.
#[derive(Clone, Copy)]
struct Accepted {
    exploded: u32,
    own: usize,
    old: Row,
    next: usize,
    entries: usize,
}
