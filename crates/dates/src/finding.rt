// Which date a day has.
ghost use Rattle.std.specs.Prelude.{◌≡◌, ◌+◌, ◌<◌, ◌≤◌};
ghost use Rattle.calendar.specs.Calendar.{leap, month_days, date_after, date_of, last_dated};
ghost use Rattle.calendar.specs.Inside.Years.{year_days, years_days};
ghost use Rattle.dates.specs.Inside.Found.{InYear};

use crate::years::{YEARS, first_day};
use calendar::Date;

// A leap year is divisible by 4, and not by 100 unless by 400.
#[tactic(auto, unfolding(calendar::specs::Calendar::leap))]
fn leap(year: u32) -> bool
    ensures { result ≡ leap year }
{
    (year % 4 == 0) & ((year % 100 != 0) | (year % 400 == 0))
}

// How many days a month has.
#[tactic(auto, unfolding(calendar::specs::Calendar::month_days))]
fn month_days(leap: bool, month: u32) -> u32
    ensures { result ≡ month_days leap month }
{
    match month {
        2 if leap => 29,
        2 => 28,
        4 | 6 | 9 | 11 => 30,
        _ => 31,
    }
}

// How many years after 2000 the year of a day comes. No year has more than 366 days, so that the search does not begin past it. Not by
// `partition_point`, which takes seven steps where this takes one or two. The bounds of a day and of a year are said at each function: a type for
// a day that has a date would be made anew at each call.
fn year_of(day: u32) -> usize
    requires { (1 ≤ day) × (day ≤ last_dated) }
    ensures { InYear result day }
{
    let from = ((day - 1) / 366) as usize;
    for k in from..YEARS - 1 {
        if day < first_day(k + 1) {
            return k;
        }
    }
    YEARS - 1
}

// The date so many days after the first of the year that comes k years after 2000.
fn date_in(k: u32, after: u32) -> Date
    requires { (k < 100) × (after < year_days (leap (2000 + k))) }
    ensures { result ≡ date_after (years_days k + after) }
{
    let year = 2000 + k;
    let leap = leap(year);
    let mut left = after;
    for month in 1..12 {
        let days = month_days(leap, month);
        if left < days {
            return Date {
                year,
                month,
                day: left + 1,
            };
        }
        left -= days;
    }
    Date {
        year,
        month: 12,
        day: left + 1,
    }
}

// The date of a day. There is no day 0: it is taken as day 1.
pub(crate) fn date_of(day: u32) -> Date
    requires { day ≤ last_dated }
    ensures { result ≡ date_of day }
{
    if day == 0 {
        return date_in(0, 0);
    }
    let k = year_of(day);
    date_in(k as u32, day - first_day(k))
}
