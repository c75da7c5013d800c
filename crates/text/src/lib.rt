// Text in ASCII, written into a lent buffer: decimal numbers.
#![tactic(auto)]

ghost use Rattle.std.specs.Prelude.{◌≡◌, length};
ghost use Rattle.rules.specs.Buffers.{written};
ghost use Rattle.writer.specs.Writing.{Wrote};
ghost use Rattle.rules.specs.Says.{says};
ghost use Rattle.text.specs.Decimal.{decimal};

use rules::Refusal;
use writer::Writer;

// How many digits a number has, 1 to 10.
#[tactic(auto, using(crate::proofs::Laws::decimal_power))]
pub fn decimal_length(n: u32) -> usize
    ensures { result ≡ length (decimal n) }
{
    if n < 10 {
        return 1;
    }
    n.ilog10() as usize + 1
}

// Writes a number's digits, and moves on past them, by hand, since std's printing has no rule of all or none: 30, and none of them, where the buffer is too short.
pub fn write_decimal(writer: &mut Writer<'_>, n: u32) -> Result<usize, Refusal>
    ensures result_value { says result ≡ written writer.old.buffer.now writer.old.at (decimal n) }
    ensures wrote { Wrote writer.old writer.new (decimal n) }
{
    // Most numbers of a line have one digit, which asks for no logarithm and no division.
    if n < 10 {
        return writer.byte((n + 48) as u8);
    }
    let count = decimal_length(n);
    if writer.too_short(count) {
        return Err(Refusal::BufferShort);
    }
    let end = writer.at + count;
    let mut left = n;
    for i in (writer.at..end).rev() {
        writer.buffer[i] = (left % 10 + 48) as u8;
        left /= 10;
    }
    writer.at = end;
    Ok(count)
}
