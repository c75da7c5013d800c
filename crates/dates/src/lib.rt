// The date of a day as text (RULES.md, 18.1): the year by a table of first days, the month by the months' lengths.
#![tactic(auto)]

mod digits;
mod finding;
mod years;

ghost use Rattle.std.specs.Prelude.{◌≡◌};
ghost use Rattle.rules.specs.Says.{says};
ghost use Rattle.writer.specs.Writing.{Wrote};
ghost use Rattle.dates.specs.Dates.{dated_text, date_answer, date_buffer};

use digits::{DATE, date_text};
use finding::date_of;
use rules::Refusal;
use writer::Writer;
pub use years::LAST_DATED;

// Writes the date of a day, and moves on past it: 31 where the day is above 36525, then 30; refused, none of it is written.
#[tactic(auto, using(crate::proofs::Writing::answer_undated, crate::proofs::Writing::buffer_undated))]
pub fn write_date(writer: &mut Writer<'_>, day: u32) -> Result<usize, Refusal>
    ensures result_value { says result ≡ date_answer writer.old.buffer.now writer.old.at day }
    ensures buffer_value { writer.new.buffer.now ≡ date_buffer writer.old.buffer.now writer.old.at day }
    ensures wrote { Wrote writer.old writer.new (dated_text day) }
{
    if LAST_DATED < day {
        return Err(Refusal::Undated);
    }
    // Asked before the date is worked out, so that a refusal takes no search.
    if writer.too_short(DATE) {
        return Err(Refusal::BufferShort);
    }
    writer.bytes(&date_text(date_of(day)))
}
