// Every small request, in order (RULES.md, 19), written into a lent buffer. No shape is stored: a request's bytes are put together in one row,
// an entry's child count after another's, and the row is written where no entry is left.
#![tactic(auto)]

ghost use Rattle.std.specs.Prelude.{◌≡◌, ◌+◌, ◌*◌, ◌≤◌, length, take};
ghost use Rattle.rules.specs.Buffers.{written, after};
ghost use Rattle.rules.specs.Says.{says};
ghost use Rattle.writer.specs.Writing.{HasRoom, WroteAll};
ghost use Rattle.small.specs.Small.{greatest_size, listed, list_bytes};
ghost use Rattle.small_requests.specs.Inside.Rows.{row_length, shapes_bytes, direction_bytes};

use rules::Refusal;
use writer::Writer;

// The greatest size that is listed.
const GREATEST_SIZE: u32 = 6;
// The bytes before a request's entries: its length, the exploded id, the direction, the tree count. Each number has one byte.
const LEAD: u8 = 4;
// The bytes of an entry: its id, its quota, its child count.
const ENTRY: u8 = 3;
// The byte that a direction is in a request; an enum would be turned into it at once.
const UPRIGHT: u8 = 0;

const INVERTED: u8 = 1;
// The bytes of a request of the greatest size, its length included.
const ROW: usize = 22;

// What is still to choose of a request: so many trees of so many entries in all, the next of which has the id `id`.
#[derive(Clone, Copy)]
struct Rest {
    id: u8,
    trees: u8,
    entries: u8,
}

// Writes every request that begins with the first `done` bytes of the row and goes on with the rest. The next entry's child count is chosen
// here, the others' below.
fn write_shapes(writer: &mut Writer<'_>, row: &mut [u8; ROW], done: usize, rest: Rest)
    requires row_len { (length row.old ≡ row_length) × (done + 3 * rest.entries ≤ row_length) × (rest.id + rest.entries ≤ 1 + greatest_size) × (rest.trees ≤ rest.entries) }
    requires due_in_bounds { HasRoom writer.old (length (shapes_bytes (take done row.old) rest.id rest.entries rest.trees)) }
    ensures wrote { WroteAll writer.old writer.new (shapes_bytes (take done row.old) rest.id rest.entries rest.trees) }
    ensures row_value { take done row.new ≡ take done row.old }
{
    let Rest { id, trees, entries } = rest;
    if entries == 0 {
        // From a row of its own: of its place a compiler knows that it is none of the buffer's, and asks for no `memmove`.
        let whole = *row;
        // Not refused: there is room.
        let _ = writer.bytes(&whole[..done]);
        return;
    }
    if trees == 0 {
        return;
    }
    row[done] = id;
    row[done + 1] = 1;
    for k in 0..=entries - trees {
        row[done + 2] = k;
        let below = Rest {
            id: id + 1,
            trees: trees - 1 + k,
            entries: entries - 1,
        };
        write_shapes(&mut *writer, &mut *row, done + ENTRY as usize, below);
    }
}

// Writes the requests of one direction: the smaller tree count first.
fn write_direction(writer: &mut Writer<'_>, row: &mut [u8; ROW], direction: u8, size: u8)
    requires row_len { (length row.old ≡ row_length) × (size ≤ greatest_size) }
    requires size_in_bounds { HasRoom writer.old (length (direction_bytes direction size)) }
    ensures { WroteAll writer.old writer.new (direction_bytes direction size) }
{
    row[0] = LEAD - 1 + ENTRY * size;
    row[1] = 1;
    row[2] = direction;
    for trees in 1..=size {
        row[3] = trees;
        let all = Rest {
            id: 1,
            trees,
            entries: size,
        };
        write_shapes(&mut *writer, &mut *row, LEAD as usize, all);
    }
}

// How many requests a size has: a table by sizes, and no loop.
fn request_count(size: u32) -> usize
    ensures { result ≡ length (listed size) }
{
    match size {
        1 => 2,
        2 => 4,
        3 => 10,
        4 => 28,
        5 => 84,
        6 => 264,
        _ => 0,
    }
}

// Writes every small request of a size from 1 to 6, each after its length; other sizes have none. 30, and no byte, where the buffer is too
// short.
pub fn small_requests(size: u32, buffer: &mut [u8]) -> Result<usize, Refusal>
    ensures result_value { says result ≡ written buffer.old 0 (list_bytes size) }
    ensures buffer_value { buffer.new ≡ after buffer.old 0 (list_bytes size) }
{
    if GREATEST_SIZE < size {
        return Ok(0);
    }
    let entries = size as u8;
    let count = request_count(size) * (LEAD + ENTRY * entries) as usize;
    if buffer.len() < count {
        return Err(Refusal::BufferShort);
    }
    // No heap: one row of fixed length for all requests.
    let mut row = [0u8; ROW];
    let mut writer = Writer::new(buffer, 0);
    write_direction(&mut writer, &mut row, UPRIGHT, entries);
    write_direction(&mut writer, &mut row, INVERTED, entries);
    Ok(count)
}
