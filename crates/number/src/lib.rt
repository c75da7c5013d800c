// Numbers in their stored form (RULES.md, 2).
#![tactic(auto)]

ghost use Rattle.std.specs.Prelude.{◌≡◌, false, ◌<◌, ◌≤◌, length};
ghost use Rattle.rules.specs.Says.{says};
ghost use Rattle.rules.specs.Buffers.{written};
ghost use Rattle.writer.specs.Writing.{Wrote};
ghost use Rattle.number.specs.Number.{number_at, bit_groups_at, added_to, bytes_of};

use rules::Refusal;
use writer::Writer;

// A number that stands in bytes: its value, and the position after its last byte.
#[derive(Clone, Copy)]
pub struct Number {
    pub value: u32,
    pub next: usize,
}

// What the fifth group counts for.
const FIFTH: u32 = 268435456;

// The number at a position: 1 where the bytes end before it does, 2 where it isn't in its shortest form or is too great. Bytes and position are
// two parameters, as in the definitions; a `Reader` joins them for who draws one after another. Inline, as `grant_at` and a grant list's `next`:
// most numbers have one byte, and a call for it took a third of a decision's time.
#[inline(always)]
pub fn number_at(bytes: &[u8], at: usize) -> Result<Number, Refusal>
    ensures { says result ≡ number_at bytes.now at }
{
    if bytes.len() <= at {
        return Err(Refusal::NumberCut);
    }
    let first = bytes[at];
    if first < 128 {
        return Ok(Number {
            value: first as u32,
            next: at + 1,
        });
    }
    later_groups(bytes, at + 1, (first - 128) as u32)
}

// The number whose first group is `low`, and whose other bytes stand from a position on.
#[tactic(auto, using(crate::proofs::Reading::goes_on))]
fn later_groups(bytes: &[u8], at: usize, low: u32) -> Result<Number, Refusal>
    requires { (low < 128) × (at ≤ length bytes.now) }
    ensures { says result ≡ added_to low 128 (bit_groups_at 3 false bytes.now at) }
{
    let mut unit: u32 = 128;
    let mut sum = low;
    for i in at..at + 3 {
        if bytes.len() <= i {
            return Err(Refusal::NumberCut);
        }
        let b = bytes[i];
        if b < 128 {
            if b == 0 {
                return Err(Refusal::NumberForm);
            }
            return Ok(Number {
                value: sum + (b as u32) * unit,
                next: i + 1,
            });
        }
        sum = sum + ((b - 128) as u32) * unit;
        unit = unit * 128;
    }
    fifth_group(bytes, at + 3, sum)
}

// The number whose first four groups are `low`, and whose fifth byte stands at a position.
#[tactic(auto, using(crate::proofs::Reading::fifth_cut, crate::proofs::Reading::fifth_great, crate::proofs::Reading::fifth_zero, crate::proofs::Reading::fifth_ends))]
fn fifth_group(bytes: &[u8], at: usize, low: u32) -> Result<Number, Refusal>
    requires { low < 268435456 }
    ensures { says result ≡ added_to low 268435456 (bit_groups_at 0 false bytes.now at) }
{
    if bytes.len() <= at {
        return Err(Refusal::NumberCut);
    }
    let fifth = bytes[at];
    if 15 < fifth {
        return Err(Refusal::NumberForm);
    }
    if fifth == 0 {
        return Err(Refusal::NumberForm);
    }
    Ok(Number {
        value: low + (fifth as u32) * FIFTH,
        next: at + 1,
    })
}

// How many bytes a number has, 1 to 5. Each test says where one more begins, which a logarithm by 128 would hide.
#[tactic(auto, unfolding(crate::specs::Number::bytes_of), using(crate::proofs::Groups::one_group, crate::proofs::Groups::more_groups))]
pub fn number_length(value: u32) -> usize
    ensures { result ≡ length (bytes_of value) }
{
    if value < 128 {
        return 1;
    }
    if value < 16384 {
        return 2;
    }
    if value < 2097152 {
        return 3;
    }
    if value < FIFTH {
        return 4;
    }
    5
}

// Writes a number's bytes, and moves on past them: 30, and none of them, where the buffer is too short.
pub fn write_number(writer: &mut Writer<'_>, value: u32) -> Result<usize, Refusal>
    ensures result_value { says result ≡ written writer.old.buffer.now writer.old.at (bytes_of value) }
    ensures wrote { Wrote writer.old writer.new (bytes_of value) }
{
    let count = number_length(value);
    if writer.too_short(count) {
        return Err(Refusal::BufferShort);
    }
    let last = writer.at + (count - 1);
    let mut left = value;
    for i in writer.at..last {
        writer.buffer[i] = (left % 128 + 128) as u8;
        left = left / 128;
    }
    writer.buffer[last] = left as u8;
    writer.at = last + 1;
    Ok(count)
}
