// The test program for fresh tables, the check and the order: its input is a script, of which it prints each line with what the line's call answers.
#![tactic(auto)]

use order::Ordered;
use rules::Refusal;
use script::{command, given};
use script_values::{Columns, narrow};
use show::{Calls, Shown};
use std::io;
use std::io::{BufWriter, Read, Write};

fn fresh<W: Write>(out: &mut W, line: &[u8]) -> io::Result<()> {
    let mut columns = Columns::of(line);
    let counted = fresh::fresh(
        columns.id.as_mut_slice(),
        columns.l.as_mut_slice(),
        columns.r.as_mut_slice(),
        columns.q.as_mut_slice(),
        narrow(given(line, 0)),
        narrow(given(line, 1)),
    );
    show::answer(out, counted.map(Shown::Count))?;
    show::columns(out, &columns)
}

// Whether so many rows of the columns are a table.
fn check(line: &[u8]) -> Result<Shown, Refusal> {
    let columns = Columns::of(line);
    table::check_columns(
        columns.id.as_slice(),
        columns.l.as_slice(),
        columns.r.as_slice(),
        columns.q.as_slice(),
        given(line, 0) as usize,
    )
    .map(|_| Shown::Sound)
}

// The order of two of a table's groups.
fn order(line: &[u8]) -> Result<Shown, Refusal> {
    let columns = Columns::of(line);
    let ordered = order::order(
        columns.id.as_slice(),
        columns.l.as_slice(),
        columns.r.as_slice(),
        columns.q.as_slice(),
        given(line, 0) as usize,
        narrow(given(line, 1)),
        narrow(given(line, 2)),
    );
    ordered.map(|o| match o {
        Ordered::Same => Shown::Same,
        Ordered::First => Shown::First,
        Ordered::Second => Shown::Second,
        Ordered::Incomparable => Shown::Incomparable,
    })
}

// The program's calls, by their letters.
struct Tables;

impl Calls for Tables {
    fn call<W: Write>(out: &mut W, line: &[u8]) -> io::Result<()> {
        match command(line) {
            Some(b'f') => fresh(out, line),
            Some(b'c') => show::answer(out, check(line)),
            Some(b'o') => show::answer(out, order(line)),
            _ => Ok(()),
        }
    }
}

fn main(rt: HostRuntime) -> io::Result<()> {
    let mut script = Vec::new(rt.alloc());
    rt.stdin().take(show::MOST_BYTES).read_to_end(&mut script)?;
    let mut out = BufWriter::new(rt.alloc(), io::writer(&rt))?;
    show::run::<Tables, _>(&mut out, &script)?;
    out.flush()
}
