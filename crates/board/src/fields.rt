// The four fields of a line, each with the byte after it. No write here is refused: there is room.
ghost use Rattle.std.specs.Prelude.{◌≡◌, ◌≤◌};
ghost use Rattle.writer.specs.Writing.{HasRoom, WroteAll};
ghost use Rattle.text.specs.Decimal.{decimal};
ghost use Rattle.calendar.specs.Calendar.{date_of, last_dated};
ghost use Rattle.dates.specs.Dates.{date_text};
ghost use Rattle.board.specs.Board.{right_in, left_in, last_text, state_text, field};

use dates::write_date;
use matching::Window;
use text::{decimal_length, write_decimal};
use writer::Writer;

const SPACE: u8 = 32;
// How many columns a feature has.
const COLUMNS: usize = 10;

// Writes a feature, right-aligned in 10 columns, and a space.
pub(crate) fn write_feature(writer: &mut Writer<'_>, feature: u32)
    requires { HasRoom writer.old 11 }
    ensures { WroteAll writer.old writer.new (field (right_in 10 (decimal feature)) 32) }
{
    let blanks = [SPACE; COLUMNS];
    let blank = COLUMNS - decimal_length(feature);
    let _ = writer.bytes(&blanks[..blank]);
    let _ = write_decimal(&mut *writer, feature);
    let _ = writer.byte(SPACE);
}

// Writes the date of a first day, and a space.
pub(crate) fn write_first(writer: &mut Writer<'_>, first: u32)
    requires { (first ≤ last_dated) × HasRoom writer.old 11 }
    ensures { WroteAll writer.old writer.new (field (left_in 10 (date_text (date_of first))) 32) }
{
    let _ = write_date(&mut *writer, first);
    let _ = writer.byte(SPACE);
}

// Writes the date of a last day, or `open`, left-aligned in 10 columns, and a space.
pub(crate) fn write_last(writer: &mut Writer<'_>, last: u32)
    requires { (last ≤ last_dated) × HasRoom writer.old 11 }
    ensures { WroteAll writer.old writer.new (field (left_in 10 (last_text last)) 32) }
{
    if last == 0 {
        let _ = writer.bytes(b"open       ");
        return;
    }
    write_first(&mut *writer, last);
}

// Writes what a grant's days say of a day, left-aligned in 7 columns, and a line feed.
pub(crate) fn write_state(writer: &mut Writer<'_>, day: u32, days: Window)
    requires { HasRoom writer.old 8 }
    ensures { WroteAll writer.old writer.new (field (left_in 7 (state_text day days)) 10) }
{
    if days.runs(day) {
        let _ = writer.bytes(b"on     \n");
        return;
    }
    if days.has_ended(day) {
        let _ = writer.bytes(b"ended  \n");
        return;
    }
    let _ = writer.bytes(b"ahead  \n");
}
