// Whether ids differ, two by two.
#![tactic(auto)]

mod chains;
mod pairs;

pub use pairs::ids_differ;
