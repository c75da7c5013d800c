// The line for a request.
ghost use Rattle.std.specs.Prelude.{◌≡◌, ◌++◌};
ghost use Rattle.rules.specs.Buffers.{written};
ghost use Rattle.rules.specs.Says.{says};
ghost use Rattle.writer.specs.Writing.{Wrote};
ghost use Rattle.lines.specs.Lines.{field_text, line_text};

use crate::fields::{LINE_FEED, field_length, write_field};
use rules::Refusal;
use writer::Writer;

// Writes a word, which brings the space after it along, and a number on one line: 30, and none of it, where the buffer is too short.
pub fn write_word(writer: &mut Writer<'_>, word: &[u8], n: u32) -> Result<usize, Refusal>
    ensures result_value { says result ≡ written writer.old.buffer.now writer.old.at (word.now ++ field_text n 10) }
    ensures wrote { Wrote writer.old writer.new (word.now ++ field_text n 10) }
{
    let whole = word.len() + field_length(n);
    if writer.too_short(whole) {
        return Err(Refusal::BufferShort);
    }
    let _ = writer.bytes(word);
    write_field(writer, n, LINE_FEED);
    Ok(whole)
}

// Writes `ok` and the count, or `no` and the refusal: 30, and none of it, where the buffer is too short.
pub fn write_line(writer: &mut Writer<'_>, line: Result<u32, Refusal>) -> Result<usize, Refusal>
    ensures result_value { says result ≡ written writer.old.buffer.now writer.old.at (line_text (says line)) }
    ensures wrote { Wrote writer.old writer.new (line_text (says line)) }
{
    match line {
        Ok(n) => write_word(writer, b"ok ", n),
        Err(why) => write_word(writer, b"no ", why.number()),
    }
}
