// A table read in from bytes (RULES.md, 11): into work columns first, and into the caller's once 13 is known.
#![tactic(auto)]

mod reading;
mod work;

pub use reading::read;
