// The test program for requests and logs: its input is a script, of which it prints each line with what the line's call answers.
#![tactic(auto)]

use script::{command, given};
use script_values::{Bytes, Columns, room};
use show::{Calls, Shown};
use std::io;
use std::io::{BufWriter, Read, Write};

fn refine<W: Write>(out: &mut W, line: &[u8]) -> io::Result<()> {
    let mut columns = Columns::of(line);
    let mut request = Bytes::empty();
    request.fill(line);
    let counted = refine::refine(
        columns.id.as_mut_slice(),
        columns.l.as_mut_slice(),
        columns.r.as_mut_slice(),
        columns.q.as_mut_slice(),
        given(line, 0) as usize,
        request.as_slice(),
    );
    show::answer(out, counted.map(Shown::Count))?;
    show::columns(out, &columns)
}

// Carries out a log, with so many bytes for its text.
fn grow<W: Write>(out: &mut W, line: &[u8]) -> io::Result<()> {
    let mut columns = Columns::of(line);
    let mut log = Bytes::empty();
    log.fill(line);
    let mut buffer = show::unwritten();
    let grown = replay::grow(
        log.as_slice(),
        columns.id.as_mut_slice(),
        columns.l.as_mut_slice(),
        columns.r.as_mut_slice(),
        columns.q.as_mut_slice(),
        &mut buffer[..room(given(line, 0))],
    );
    let found = grown.map_or(Shown::NoRoom, Shown::Bytes);
    show::written(out, Ok(found), &buffer, true)?;
    show::columns(out, &columns)
}

// The program's calls, by their letters.
struct Requests;

impl Calls for Requests {
    fn call<W: Write>(out: &mut W, line: &[u8]) -> io::Result<()> {
        match command(line) {
            Some(b'r') => refine(out, line),
            Some(b'g') => grow(out, line),
            _ => Ok(()),
        }
    }
}

fn main(rt: HostRuntime) -> io::Result<()> {
    let mut script = Vec::new(rt.alloc());
    rt.stdin().take(show::MOST_BYTES).read_to_end(&mut script)?;
    let mut out = BufWriter::new(rt.alloc(), io::writer(&rt))?;
    show::run::<Requests, _>(&mut out, &script)?;
    out.flush()
}
