// The test program for reflected trees: its input is a script, of which it prints each line with what the line's call answers.
#![tactic(auto)]

use reflected::reflected;
use script::{command, given};
use script_values::{Bytes, room};
use show::{Calls, Shown};
use std::io;
use std::io::{BufWriter, Read, Write};

// Reads a reflected tree and writes its list into so many bytes.
fn list<W: Write>(out: &mut W, line: &[u8]) -> io::Result<()> {
    let mut tree = Bytes::empty();
    tree.fill(line);
    let mut buffer = show::unwritten();
    let written = reflected(tree.as_slice(), &mut buffer[..room(given(line, 0))]);
    show::written(out, written.map(Shown::Bytes), &buffer, false)
}

// The program's calls, by their letters.
struct Reflected;

impl Calls for Reflected {
    fn call<W: Write>(out: &mut W, line: &[u8]) -> io::Result<()> {
        match command(line) {
            Some(b'r') => list(out, line),
            _ => Ok(()),
        }
    }
}

fn main(rt: HostRuntime) -> io::Result<()> {
    let mut script = Vec::new(rt.alloc());
    rt.stdin().take(show::MOST_BYTES).read_to_end(&mut script)?;
    let mut out = BufWriter::new(rt.alloc(), io::writer(&rt))?;
    show::run::<Reflected, _>(&mut out, &script)?;
    out.flush()
}
