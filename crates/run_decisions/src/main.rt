// The test program for decisions: its input is a script, of which it prints each line with what the line's call answers.
#![tactic(auto)]

use dating::Decided;
use rules::Refusal;
use script::{command, given};
use script_values::{Bytes, narrow, room};
use show::{Calls, Shown};
use std::io;
use std::io::{BufWriter, Read, Write};
use writer::Writer;

fn shown(decided: Decided) -> Shown {
    match decided {
        Decided::OnOpen => Shown::Open,
        Decided::OnUntil(day) => Shown::On(day),
        Decided::Ended(day) => Shown::Ended(day),
        Decided::Ahead(day) => Shown::Ahead(day),
        Decided::Never => Shown::Never,
    }
}

// By a feature, a pass and a day.
fn decide(line: &[u8]) -> Result<Shown, Refusal> {
    let mut grants = Bytes::empty();
    grants.fill(line);
    let decided = decide::decide(
        narrow(given(line, 0)),
        narrow(given(line, 1)),
        narrow(given(line, 2)),
        narrow(given(line, 3)),
        grants.as_slice(),
    );
    decided.map(shown)
}

// Of a question in bytes.
fn question(line: &[u8]) -> Result<Decided, Refusal> {
    let mut bytes = Bytes::empty();
    bytes.fill(line);
    decide::question(bytes.as_slice())
}

// Writes the line that `may` prints of a question into so many bytes.
fn may<W: Write>(out: &mut W, line: &[u8]) -> io::Result<()> {
    let mut buffer = show::unwritten();
    let mut writer = Writer::new(&mut buffer[..room(given(line, 0))], 0);
    let written = decision_line::write_decision(&mut writer, question(line));
    show::written(out, written.map(Shown::Bytes), &buffer, true)
}

// The program's calls, by their letters.
struct Decisions;

impl Calls for Decisions {
    fn call<W: Write>(out: &mut W, line: &[u8]) -> io::Result<()> {
        match command(line) {
            Some(b'd') => show::answer(out, decide(line)),
            Some(b'q') => show::answer(out, question(line).map(shown)),
            Some(b'm') => may(out, line),
            _ => Ok(()),
        }
    }
}

fn main(rt: HostRuntime) -> io::Result<()> {
    let mut script = Vec::new(rt.alloc());
    rt.stdin().take(show::MOST_BYTES).read_to_end(&mut script)?;
    let mut out = BufWriter::new(rt.alloc(), io::writer(&rt))?;
    show::run::<Decisions, _>(&mut out, &script)?;
    out.flush()
}
