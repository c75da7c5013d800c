// Lists every small request of a size (RULES.md, 19). Its input is the size, as a stored number; its output the requests' bytes, each after its
// length, as they stand in a log. Input that is no number has none.
#![tactic(auto)]

ghost use Rattle.std.specs.Prelude.{◌≡◌, ◌≤◌, length, take};
ghost use Rattle.small.specs.Small.{list_bytes};

use number::number_at;
use small_requests::small_requests;
use std::io;
use std::io::Read;

// How many bytes of input are read. Each program reads its own: no library of the engine reads.
const MOST_BYTES: u64 = 65536;

// How many bytes the longest list has: 264 requests of 22 bytes.
const LONGEST: usize = 5808;

// Writes the list for a size at the start of a buffer, which has room for any, and answers its length.
fn list(size: u32, buffer: &mut [u8]) -> usize
    requires { 5808 ≤ length buffer.old }
    ensures prefix_len { result ≤ length buffer.new }
    ensures buffer_value { take result buffer.new ≡ list_bytes size }
{
    small_requests(size, buffer).unwrap_or(0)
}

fn main(rt: HostRuntime) -> io::Result<()> {
    let mut input = Vec::new(rt.alloc());
    rt.stdin().take(MOST_BYTES).read_to_end(&mut input)?;
    let size = number_at(&input, 0).map_or(0, |number| number.value);
    let mut buffer = [0u8; LONGEST];
    let length = list(size, &mut buffer);
    rt.write_all(&buffer[..length])
}
