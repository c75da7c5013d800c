// The test program for stored numbers and boxes: its input is a script, of which it prints each line with what the line's call answers.
#![tactic(auto)]

use boxes::{Box, Cut};
use coordinates::{Coordinate, LValue, RValue};
use script::{command, given};
use script_values::{Bytes, narrow, room};
use show::{Calls, Shown};
use std::io;
use std::io::{BufWriter, Read, Write};
use writer::Writer;

// The number at a position of some bytes: its value, and the position after it.
fn number<W: Write>(out: &mut W, line: &[u8]) -> io::Result<()> {
    let mut bytes = Bytes::empty();
    bytes.fill(line);
    let number = number::number_at(bytes.as_slice(), given(line, 0) as usize);
    show::answer(out, number.map(|n| Shown::Number(n.value)))?;
    number.map_or(Ok(()), |n| write!(out, " {}", n.next))
}

// Writes a number: its value, the position, and the bytes of the buffer. Its length comes between the answer and the buffer, so
// `show::written` doesn't serve.
fn write<W: Write>(out: &mut W, line: &[u8]) -> io::Result<()> {
    let mut buffer = show::unwritten();
    let value = narrow(given(line, 0));
    let n = room(given(line, 2));
    let mut writer = Writer::new(&mut buffer[0..n], given(line, 1) as usize);
    let written = number::write_number(&mut writer, value);
    show::answer(out, written.map(Shown::Bytes))?;
    write!(out, "/{}", number::number_length(value))?;
    show::buffer(out, &buffer, 0)
}

// The box whose l, r and quota stand from a number of the line on.
fn area(line: &[u8], at: usize) -> Box {
    Box {
        l: LValue::new(given(line, at)),
        r: RValue::new(given(line, at.saturating_add(1))),
        quota: given(line, at.saturating_add(2)),
    }
}

// A coordinate's number is found by comparisons, from the highest bit down: no call answers it.
fn number_of<const OF_R: bool>(c: Coordinate<OF_R>) -> u64 {
    let mut n = 0;
    for bit in (0u32..64).rev() {
        let next = n | 1u64 << bit;
        if Coordinate::new(next).at_most(c) {
            n = next;
        }
    }
    n
}

fn show_box<W: Write>(out: &mut W, b: Box) -> io::Result<()> {
    write!(out, " {} {} {}", number_of(b.l), number_of(b.r), b.quota)
}

fn show_cut<W: Write>(out: &mut W, cut: Option<Cut>) -> io::Result<()> {
    match cut {
        Some(Cut { part, rest }) => {
            write!(out, "{}", Shown::Parts)?;
            show_box(out, part)?;
            show_box(out, rest)
        }
        None => write!(out, "{}", Shown::NoParts),
    }
}

// The program's calls, by their letters.
struct Numbers;

impl Calls for Numbers {
    fn call<W: Write>(out: &mut W, line: &[u8]) -> io::Result<()> {
        match command(line) {
            Some(b'n') => number(out, line),
            Some(b'w') => write(out, line),
            Some(b'h') => write!(
                out,
                "{}",
                Shown::from(area(line, 0).contains(area(line, 3)))
            ),
            Some(b'a') => write!(
                out,
                "{}",
                Shown::from(area(line, 0).disjoint(area(line, 3)))
            ),
            // The child, and what is left.
            Some(b'p') => show_cut(out, area(line, 0).next_child(given(line, 3))),
            // The parent, and what its children share; upright where the last number is 0.
            Some(b'c') => show_cut(
                out,
                area(line, 0).corner(given(line, 4) == 0, given(line, 3)),
            ),
            _ => Ok(()),
        }
    }
}

fn main(rt: HostRuntime) -> io::Result<()> {
    let mut script = Vec::new(rt.alloc());
    rt.stdin().take(show::MOST_BYTES).read_to_end(&mut script)?;
    let mut out = BufWriter::new(rt.alloc(), io::writer(&rt))?;
    show::run::<Numbers, _>(&mut out, &script)?;
    out.flush()
}
