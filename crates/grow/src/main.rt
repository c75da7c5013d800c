// Reads a log of at most 65536 bytes from standard input, carries it out on a table of 256 rows, and prints a line for each request
// and then the table.
#![tactic(auto)]

ghost use Rattle.std.specs.Prelude.{◌≡◌, ◌≤◌, length, replicate, take};
ghost use Rattle.rules.specs.Limits.{most_rows};
ghost use Rattle.replay.specs.Replay.{blank, grow_text};

use rules::MOST_ROWS;
use std::io;
use std::io::Read;

// How many bytes of a log are read. Each program reads its own input: no library of the engine reads.
const MOST_BYTES: usize = 65536;

// A column of the table.
fn column() -> [u32; MOST_ROWS]
    ensures most_rows_value { most_rows ≡ length result }
    ensures value { result ≡ replicate most_rows 0 }
{
    [0; MOST_ROWS]
}

// Room for the text of any log of 65536 bytes: 14 for each of its bytes, and 16384 for the table.
const TEXT_ROOM: usize = 933888;

// In a function of its own: tried, in `main` the check runs out of room on so long an array.
fn text_buffer() -> [u8; TEXT_ROOM] {
    [0; TEXT_ROOM]
}

// Carries out a log on a new table and writes what it says at the start of a text, which has room for any log that is read; answers
// how many bytes.
fn write_text(log: &[u8], text: &mut [u8]) -> usize
    requires log_len_bound { length log.now ≤ 65536 }
    requires in_bounds { 933888 ≤ length text.old }
    ensures prefix_len { result ≤ length text.new }
    ensures text_value { take result text.new ≡ grow_text blank log.now }
{
    let mut id = column();
    let mut l = column();
    let mut r = column();
    let mut q = column();
    replay::grow(log, &mut id, &mut l, &mut r, &mut q, text).unwrap_or(0)
}

fn main(rt: HostRuntime) -> io::Result<()> {
    let mut input = Vec::new(rt.alloc());
    rt.stdin().take(MOST_BYTES as u64).read_to_end(&mut input)?;
    let n = input.len().min(MOST_BYTES);
    let mut text = text_buffer();
    let length = write_text(&input[..n], &mut text);
    rt.write_all(&text[..length])
}
