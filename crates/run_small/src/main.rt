// The test program for small requests: its input is a script, of which it prints each line with what the line's call answers.
#![tactic(auto)]

use script::{command, given};
use script_values::{narrow, room};
use show::{Calls, Shown};
use small_requests::small_requests;
use std::io;
use std::io::{BufWriter, Read, Write};

// Lists the small requests of a size in so many bytes.
fn list<W: Write>(out: &mut W, line: &[u8]) -> io::Result<()> {
    let mut buffer = show::unwritten();
    let written = small_requests(narrow(given(line, 0)), &mut buffer[..room(given(line, 1))]);
    show::written(out, written.map(Shown::Bytes), &buffer, false)
}

// The program's calls, by their letters.
struct Small;

impl Calls for Small {
    fn call<W: Write>(out: &mut W, line: &[u8]) -> io::Result<()> {
        match command(line) {
            Some(b's') => list(out, line),
            _ => Ok(()),
        }
    }
}

fn main(rt: HostRuntime) -> io::Result<()> {
    let mut script = Vec::new(rt.alloc());
    rt.stdin().take(show::MOST_BYTES).read_to_end(&mut script)?;
    let mut out = BufWriter::new(rt.alloc(), io::writer(&rt))?;
    show::run::<Small, _>(&mut out, &script)?;
    out.flush()
}
