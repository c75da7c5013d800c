// What the programs print (RULES.md, 14), written into a lent buffer: a word and a number on a line, the line for a request, and a table.
#![tactic(auto)]

mod answers;
mod fields;
mod tables;

pub use answers::{write_line, write_word};
pub use tables::write_table;
