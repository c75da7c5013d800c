// A date's digits.
ghost use Rattle.std.specs.Prelude.{◌≡◌, ◌<◌};
ghost use Rattle.dates.specs.Dates.{two, date_text};
ghost use Rattle.dates.specs.Inside.Found.{Writable};

use calendar::Date;

// How many bytes a date has.
pub(crate) const DATE: usize = 10;

// A number below 100 in two digits.
#[tactic(auto, unfolding(crate::specs::Dates::two))]
fn two(n: u32) -> [u8; 2]
    requires { n < 100 }
    ensures { result ≡ two n }
{
    [(n / 10 + 48) as u8, (n % 10 + 48) as u8]
}

// A date as year-month-day.
#[tactic(auto, unfolding(crate::specs::Dates::date_text))]
pub(crate) fn date_text(t: Date) -> [u8; DATE]
    requires { Writable t }
    ensures { result ≡ date_text t }
{
    let [a, b] = two(t.year / 100);
    let [c, d] = two(t.year % 100);
    let [m, n] = two(t.month);
    let [x, y] = two(t.day);
    [a, b, c, d, b'-', m, n, b'-', x, y]
}
