// Writes the list of a reflected tree of the old product (RULES.md, 20): its input is the tree's bytes, its output the list, a log that `grow` reads.
// Input that is refused has none.
#![tactic(auto)]

ghost use Rattle.std.specs.Prelude.{◌≡◌, ◌≤◌, length, take};
ghost use Rattle.reflected_tree.specs.Reading.{reflected_of};
ghost use Rattle.reflected_list.specs.List.{list_or_none};

use reflected::reflected;
use std::io;
use std::io::Read;

// How many bytes of input are read. Each program reads its own: no library of the engine reads.
const MOST_BYTES: u64 = 65536;

// Room for any list: 29 bytes for each of 64 nodes but the root, and 6 for the pair.
const LONGEST: usize = 1833;

// Writes the list at the start of a buffer, which has room for any, and answers its length.
fn list(bytes: &[u8], buffer: &mut [u8]) -> usize
    requires { 1833 ≤ length buffer.old }
    ensures prefix_len { result ≤ length buffer.new }
    ensures buffer_value { take result buffer.new ≡ list_or_none (reflected_of bytes.now) }
{
    reflected(bytes, buffer).unwrap_or(0)
}

fn main(rt: HostRuntime) -> io::Result<()> {
    let mut input = Vec::new(rt.alloc());
    rt.stdin().take(MOST_BYTES).read_to_end(&mut input)?;
    let mut buffer = [0u8; LONGEST];
    let length = list(&input, &mut buffer);
    rt.write_all(&buffer[..length])
}
