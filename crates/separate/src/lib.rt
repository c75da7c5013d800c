// Whether boxes are disjoint, two by two.
#![tactic(auto)]

mod certifying;
mod pairs;
mod sorting;

pub use pairs::boxes_separate;
