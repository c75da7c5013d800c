// A number and the byte after it.
ghost use Rattle.std.specs.Prelude.{◌≡◌, ◌+◌, length};
ghost use Rattle.writer.specs.Writing.{HasRoom, WroteAll};
ghost use Rattle.text.specs.Decimal.{decimal};
ghost use Rattle.lines.specs.Lines.{field_text};

use text::{decimal_length, write_decimal};
use writer::Writer;

pub(crate) const SPACE: u8 = 32;

pub(crate) const LINE_FEED: u8 = 10;

// How many bytes a number and the byte after it have, 2 to 11.
#[tactic(auto, using(text::proofs::Laws::decimal_count))]
pub(crate) fn field_length(n: u32) -> usize
    ensures { result ≡ length (decimal n) + 1 }
{
    decimal_length(n) + 1
}

// Writes a number and the byte after it, for which there is room.
pub(crate) fn write_field(writer: &mut Writer<'_>, n: u32, last: u8)
    requires { HasRoom writer.old (length (field_text n last)) }
    ensures { WroteAll writer.old writer.new (field_text n last) }
{
    let _ = write_decimal(&mut *writer, n);
    let _ = writer.byte(last);
}
