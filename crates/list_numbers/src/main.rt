// Lists the stored numbers of its input, at most 65536 bytes, a line each; `no` and the refusal at the first that is bad.
#![tactic(auto)]

use rules::Refusal;
use std::io;
use std::io::{BufWriter, Read, Write};

// How many bytes of input are read. Each program reads its own: no library of the engine reads.
const MOST_BYTES: u64 = 65536;

fn line<W: Write>(out: &mut W, value: u32) -> io::Result<()> {
    writeln!(out, "{value}")
}

fn refusal<W: Write>(out: &mut W, why: Refusal) -> io::Result<()> {
    write!(out, "no ")?;
    line(out, why.number())
}

// A number has 1 to 5 bytes and the next begins where it ends, so no range steps so, and an iterator would be this loop in a struct.
fn list<W: Write>(out: &mut W, bytes: &[u8]) -> io::Result<()> {
    let mut at = 0;
    while at < bytes.len() {
        match number::number_at(bytes, at) {
            Ok(number) => {
                line(out, number.value)?;
                at = number.next;
            }
            Err(why) => return refusal(out, why),
        }
    }
    Ok(())
}

fn main(rt: HostRuntime) -> io::Result<()> {
    let mut input = Vec::new(rt.alloc());
    rt.stdin().take(MOST_BYTES).read_to_end(&mut input)?;
    let mut out = BufWriter::new(rt.alloc(), io::writer(&rt))?;
    list(&mut out, &input)?;
    out.flush()
}
