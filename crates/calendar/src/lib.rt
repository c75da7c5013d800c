// The calendar (RULES.md, 18.1): leap years, months, and the date of a day. Definitions and laws, and the date that both definitions and
// code speak of; crate dates has the code.
#![tactic(auto)]

// A date of the calendar.
#[derive(Clone, Copy)]
pub struct Date {
    pub year: u32,
    pub month: u32,
    pub day: u32,
}
