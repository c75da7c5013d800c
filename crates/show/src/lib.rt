// What the test programs share: the run over a script, and what they print of answers, buffers and columns. What only prints has nothing
// to say.
#![tactic(auto)]

ghost use Rattle.std.specs.Prelude.{◌≡◌, ◌≤◌, length, replicate, if◌then◌else◌};
ghost use Rattle.show.specs.Shown.{used_of, between_of};
ghost use Rattle.show.specs.declared.Shown.TheVariants.{Yes, Not};

#[cfg(test)]
mod tests;

use rules::Refusal;
use script_values::Columns;
use std::io::Write;
use std::{fmt, io};

// How many bytes of input a test program reads.
pub const MOST_BYTES: u64 = 65536;

// The calls that a test program makes: it prints what a line's call answers, and nothing where the line names none. A trait, since a function
// that takes a closure has to ask that it may be called.
pub trait Calls {
    fn call<W: Write>(out: &mut W, line: &[u8]) -> io::Result<()>;
}

// Prints each line of a script, with what its call prints. Text after the last line feed is no line. The script is read and the output made by
// the program: no library reads.
pub fn run<C: Calls, W: Write>(out: &mut W, script: &[u8]) -> io::Result<()> {
    for piece in script.split_inclusive(|c| *c == b'\n') {
        if let Some(line) = piece.strip_suffix(b"\n") {
            out.write_all(line)?;
            C::call(out, line)?;
            out.write_all(b"\n")?;
        }
    }
    Ok(())
}

// A value that makes the calls, and may keep what they look at. It can be asked for any line.
pub trait Caller<W> {
    fn call(&self, out: &mut W, line: &[u8]) -> io::Result<()>;
}

// The same run, by such a value. It has a loop of its own, so that the programs' code stays as it is.
pub fn run_by<W: Write, C: Caller<W>>(out: &mut W, script: &[u8], caller: &C) -> io::Result<()> {
    for piece in script.split_inclusive(|c| *c == b'\n') {
        if let Some(line) = piece.strip_suffix(b"\n") {
            out.write_all(line)?;
            caller.call(out, line)?;
            out.write_all(b"\n")?;
        }
    }
    Ok(())
}

// What a call finds.
#[derive(Clone, Copy)]
pub enum Shown {
    Count(usize),
    Bytes(usize),
    Number(u32),
    On(u32),
    Ended(u32),
    Ahead(u32),
    Open,
    Never,
    Sound,
    Same,
    First,
    Second,
    Incomparable,
    Yes,
    Not,
    Parts,
    NoParts,
    // A case of its own: what has no room is no refusal, and has no number.
    NoRoom,
}

impl From<bool> for Shown {
    ghost from_gives = { λ yes shown. shown ≡ (if yes then Yes else Not) };

    fn from(yes: bool) -> Shown {
        if yes { Shown::Yes } else { Shown::Not }
    }
}

impl fmt::Display for Shown {
    fn fmt<W: fmt::Write>(&self, f: &mut fmt::Formatter<W>) -> fmt::Result {
        match *self {
            Shown::Count(n) => write!(f, ": count {n}"),
            Shown::Bytes(n) => write!(f, ": bytes {n}"),
            Shown::Number(n) => write!(f, ": number {n}"),
            Shown::On(day) => write!(f, ": on {day}"),
            Shown::Ended(day) => write!(f, ": ended {day}"),
            Shown::Ahead(day) => write!(f, ": ahead {day}"),
            Shown::Open => f.write_str(": on open"),
            Shown::Never => f.write_str(": never"),
            Shown::Sound => f.write_str(": sound"),
            Shown::Same => f.write_str(": same"),
            Shown::First => f.write_str(": first"),
            Shown::Second => f.write_str(": second"),
            Shown::Incomparable => f.write_str(": incomparable"),
            Shown::Yes => f.write_str(": yes"),
            Shown::Not => f.write_str(": not"),
            Shown::Parts => f.write_str(": parts"),
            Shown::NoParts => f.write_str(": none"),
            Shown::NoRoom => f.write_str(": no room"),
        }
    }
}

// What a call answers: what it finds, or the number of its refusal.
pub fn answer<W: Write>(out: &mut W, answer: Result<Shown, Refusal>) -> io::Result<()> {
    match answer {
        Ok(shown) => write!(out, "{shown}"),
        Err(why) => write!(out, ": no {}", why.number()),
    }
}

// A buffer before it is written into.
pub fn unwritten() -> [u8; 65536]
    ensures value { 65536 ≡ length result }
    ensures value_2 { result ≡ replicate 65536 238 }
{
    [0xEE; 65536]
}

// Where the EE at the end begin. A `match`, since by `map_or` the proof did not close.
#[tactic(auto, using(crate::proofs::Laws::used_all))]
fn used(s: &[u8]) -> usize
    ensures upper_bound { result ≤ length s.now }
    ensures value { result ≡ used_of (length s.now) s.now }
{
    match s.iter().rposition(|b| *b != 0xEE) {
        Some(i) => i + 1,
        None => 0,
    }
}

// So many of a buffer's bytes as text, or all in hexadecimal but the EE at its end, which are counted.
pub fn buffer<W: Write>(out: &mut W, s: &[u8], as_text: usize) -> io::Result<()> {
    let n = used(s);
    for b in s[..n].iter().skip(as_text) {
        write!(out, " {b:02x}")?;
    }
    write!(out, "+{}", s.len() - n)?;
    match s.get(..as_text) {
        Some(text) if !text.is_empty() => {
            out.write_all(b"\n")?;
            out.write_all(text)
        }
        _ => Ok(()),
    }
}

// What a call found that wrote into a buffer, and the buffer; what it wrote is text or stored bytes.
pub fn written<W: Write>(
    out: &mut W,
    found: Result<Shown, Refusal>,
    bytes: &[u8],
    as_text: bool,
) -> io::Result<()> {
    answer(out, found)?;
    let text = match found {
        Ok(Shown::Bytes(n)) if as_text => n,
        _ => 0,
    };
    buffer(out, bytes, text)
}

// A number stands between two that are equal to it, or one less and one more.
#[tactic(auto, unfolding(crate::specs::Shown::between_of))]
fn between(before: Option<u32>, here: u32, after: Option<u32>) -> bool
    ensures { result ≡ between_of before here after }
{
    match (before, after) {
        (Some(a), Some(b)) => {
            let (a, n, b) = (u64::from(a), u64::from(here), u64::from(b));
            a == n && n == b || a + 1 == n && n + 1 == b || b + 1 == n && n + 1 == a
        }
        _ => false,
    }
}

// The numbers of a column; in a long one the ends of each run: `a-b`, or `a*n`.
fn column<W: Write>(out: &mut W, name: char, rows: &[u32]) -> io::Result<()> {
    write!(out, " {name}")?;
    let mut left_out: u64 = 0;
    let mut before = None;
    for (i, row) in rows.iter().enumerate() {
        let here = *row;
        let after = if 8 < rows.len() {
            rows.get(i + 1).copied()
        } else {
            None
        };
        if between(before, here, after) {
            left_out = left_out.saturating_add(1);
        } else {
            match left_out {
                0 => write!(out, " {here}")?,
                n if before == Some(here) => write!(out, "*{}", n.saturating_add(2))?,
                _ => write!(out, "-{here}")?,
            }
            left_out = 0;
        }
        before = Some(here);
    }
    Ok(())
}

pub fn columns<W: Write>(out: &mut W, columns: &Columns) -> io::Result<()> {
    column(out, 'i', columns.id.as_slice())?;
    column(out, 'l', columns.l.as_slice())?;
    column(out, 'r', columns.r.as_slice())?;
    column(out, 'q', columns.q.as_slice())
}
