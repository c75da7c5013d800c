// The two coordinates of the l–r plane (RULES.md, 3). They are types of their own, and their number is private to module axis, whose
// methods take two of one type: so a comparison of an l-value with an r-value can't be written.
#![tactic(auto)]

mod axis;

pub use axis::{Coordinate, LValue, RValue};
