// The test program for stored tables: its input is a script, of which it prints each line with what the line's call answers.
#![tactic(auto)]

use script::{command, given};
use script_values::{Bytes, Columns, room};
use show::{Calls, Shown};
use std::io;
use std::io::{BufWriter, Read, Write};

fn load<W: Write>(out: &mut W, line: &[u8]) -> io::Result<()> {
    let mut columns = Columns::of(line);
    let mut bytes = Bytes::empty();
    bytes.fill(line);
    let counted = load::read(
        columns.id.as_mut_slice(),
        columns.l.as_mut_slice(),
        columns.r.as_mut_slice(),
        columns.q.as_mut_slice(),
        bytes.as_slice(),
    );
    show::answer(out, counted.map(Shown::Count))?;
    show::columns(out, &columns)
}

// Stores columns in so many bytes.
fn store<W: Write>(out: &mut W, line: &[u8]) -> io::Result<()> {
    let columns = Columns::of(line);
    let mut buffer = show::unwritten();
    let stored = store::store(
        columns.id.as_slice(),
        columns.l.as_slice(),
        columns.r.as_slice(),
        columns.q.as_slice(),
        given(line, 0) as usize,
        &mut buffer[..room(given(line, 1))],
    );
    show::written(out, stored.map(Shown::Bytes), &buffer, false)
}

// The program's calls, by their letters.
struct Stores;

impl Calls for Stores {
    fn call<W: Write>(out: &mut W, line: &[u8]) -> io::Result<()> {
        match command(line) {
            Some(b's') => store(out, line),
            Some(b'l') => load(out, line),
            _ => Ok(()),
        }
    }
}

fn main(rt: HostRuntime) -> io::Result<()> {
    let mut script = Vec::new(rt.alloc());
    rt.stdin().take(show::MOST_BYTES).read_to_end(&mut script)?;
    let mut out = BufWriter::new(rt.alloc(), io::writer(&rt))?;
    show::run::<Stores, _>(&mut out, &script)?;
    out.flush()
}
