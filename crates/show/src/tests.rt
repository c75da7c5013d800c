// The run by a value: what it prints, and that it ends with the first error and answers it.
use crate::{Caller, run_by};
use std::io;
use std::io::{ErrorKind, Write};
use std::test::Fail;

// Prints a word that it keeps and how long the line is, and refuses a line that begins with a full stop.
#[derive(Drop)]
struct Lengths<'a> {
    word: &'a [u8],
}

impl<W: Write> Caller<W> for Lengths<'_> {
    fn call(&self, out: &mut W, line: &[u8]) -> io::Result<()> {
        if line.starts_with(b".") {
            return Err(io::Error::from(ErrorKind::InvalidInput));
        }
        out.write_all(self.word)?;
        write!(out, "{}", line.len())
    }
}

// A writer that has room for so many bytes, and none for a piece that has more. It knows whether it was asked again after that.
#[derive(Drop)]
struct Room {
    left: usize,
    full: bool,
    asked_again: bool,
}

impl Room {
    fn of(left: usize) -> Room {
        Room {
            left,
            full: false,
            asked_again: false,
        }
    }
}

impl Write for Room {
    fn write(&mut self, buf: &[u8]) -> io::Result<usize> {
        self.asked_again |= self.full;
        if self.left < buf.len() {
            self.full = true;
            return Err(io::Error::from(ErrorKind::StorageFull));
        }
        self.left -= buf.len();
        Ok(buf.len())
    }

    fn flush(&mut self) -> io::Result<()> {
        Ok(())
    }
}

fn sure(it_is: bool, if_not: &'static str) -> Result<(), Fail> {
    it_is.then_some(()).ok_or(if_not)?;
    Ok(())
}

const SCRIPT: &[u8] = b"one\n\n three \n4\nfive\n\nseven of them\nno line";

const PRINTED: &[u8] =
    b"one: bytes 3\n: bytes 0\n three : bytes 7\n4: bytes 1\nfive: bytes 4\n: bytes 0\nseven of them: bytes 13\n";

#[test]
fn each_line(rt: HostRuntime) -> Result<(), Fail> {
    let lengths = Lengths { word: b": bytes " };
    let mut out = Vec::new(rt.alloc());
    run_by(&mut out, SCRIPT, &lengths)?;
    sure(out.as_slice() == PRINTED, "printed otherwise")
}

#[test]
fn to_a_call_that_fails(rt: HostRuntime) -> Result<(), Fail> {
    let lengths = Lengths { word: b" " };
    let mut out = Vec::new(rt.alloc());
    let error = run_by(&mut out, b"one\n.\ntwo\n", &lengths).err();
    let kind = error.ok_or("no error")?.kind();
    sure(kind == ErrorKind::InvalidInput, "another error")?;
    let printed: &[u8] = b"one 3\n.";
    sure(out.as_slice() == printed, "printed otherwise")
}

#[test]
fn to_a_write_that_fails() -> Result<(), Fail> {
    let lengths = Lengths { word: b": bytes " };
    for left in 0..PRINTED.len() {
        let mut room = Room::of(left);
        let error = run_by(&mut room, SCRIPT, &lengths).err();
        let kind = error.ok_or("room enough")?.kind();
        sure(kind == ErrorKind::StorageFull, "another error")?;
        sure(!room.asked_again, "asked again")?;
    }
    run_by(&mut Room::of(PRINTED.len()), SCRIPT, &lengths)?;
    Ok(())
}
