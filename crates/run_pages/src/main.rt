// The test program for pages: its input is a script, of which it prints each line with what the line's call answers.
#![tactic(auto)]

use dates::write_date;
use script::{command, given};
use script_values::{Bytes, narrow, room};
use show::{Calls, Shown};
use std::io;
use std::io::{BufWriter, Read, Write};
use writer::Writer;

// Writes the date of a day into so many bytes.
fn date<W: Write>(out: &mut W, line: &[u8]) -> io::Result<()> {
    let mut buffer = show::unwritten();
    let mut writer = Writer::new(&mut buffer[..room(given(line, 1))], 0);
    let written = write_date(&mut writer, narrow(given(line, 0)));
    show::written(out, written.map(Shown::Bytes), &buffer, true)
}

// Writes the page of a pass on a day into so many bytes.
fn page<W: Write>(out: &mut W, line: &[u8]) -> io::Result<()> {
    let mut grants = Bytes::empty();
    grants.fill(line);
    let mut buffer = show::unwritten();
    let written = page::page(
        narrow(given(line, 0)),
        narrow(given(line, 1)),
        narrow(given(line, 2)),
        grants.as_slice(),
        &mut buffer[..room(given(line, 3))],
    );
    show::written(out, written.map(Shown::Bytes), &buffer, true)
}

// The program's calls, by their letters.
struct Pages;

impl Calls for Pages {
    fn call<W: Write>(out: &mut W, line: &[u8]) -> io::Result<()> {
        match command(line) {
            Some(b'd') => date(out, line),
            Some(b'p') => page(out, line),
            _ => Ok(()),
        }
    }
}

fn main(rt: HostRuntime) -> io::Result<()> {
    let mut script = Vec::new(rt.alloc());
    rt.stdin().take(show::MOST_BYTES).read_to_end(&mut script)?;
    let mut out = BufWriter::new(rt.alloc(), io::writer(&rt))?;
    show::run::<Pages, _>(&mut out, &script)?;
    out.flush()
}
