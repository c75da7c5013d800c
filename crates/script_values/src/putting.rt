// The bytes that a script's line gives.
ghost use Rattle.std.specs.Prelude.{◌≡◌};
ghost use Rattle.script_values.specs.Filled.{none_of};
ghost use Rattle.script_values.specs.Bytes.{given_by, byte_put, number_put, entry_put, bytes_until, item_put, bytes_of_line, filled_with};

use crate::filled::Filled;
use crate::narrow;
use number::write_number;
use script::{Item, Items};
use writer::Writer;

// At most 65536 bytes.
pub type Bytes = Filled<u8, 65536>;

impl Filled<u8, 65536> {
    // None yet.
    pub fn empty() -> Bytes
        ensures { result ≡ none_of 65536 0 }
    {
        Filled::none(0)
    }

    // The bytes that a line gives, in the place of those before. In place, since so many bytes are copied where a call answers them.
    pub fn fill(&mut self, line: &[u8])
        ensures { self.new ≡ filled_with line.now self.old }
    {
        self.len = bytes(line, &mut self.items);
    }
}

// Puts the bytes that a line gives at a buffer's start, where there is room, and answers how many they are.
#[tactic(auto, unfolding(crate::specs::Bytes::bytes_from))]
pub fn bytes(line: &[u8], buffer: &mut [u8]) -> usize
    ensures value { result ≡ (bytes_of_line line.now buffer.old).count }
    ensures buffer_value { buffer.new ≡ (bytes_of_line line.now buffer.old).bytes }
{
    let mut writer = Writer::new(buffer, 0);
    let mut from = 0;
    for item in Items::new(line) {
        match item {
            Item::Number {
                section,
                value,
                byte,
            } => put(&mut writer, from, section, value, byte),
            Item::Word(Some(b'u')) => {}
            Item::Word(_) => from = writer.at,
        }
    }
    writer.at
}

// A number of a section: `bytes` as they are, `numbers` in stored form, `entries` by their ids, and `until` there are so many bytes those of
// the section before it.
#[tactic(auto, unfolding(crate::specs::Bytes::item_put))]
fn put(writer: &mut Writer<'_>, from: usize, section: Option<u8>, value: u64, byte: u8)
    ensures value { given_by writer.new ≡ item_put section value byte from (given_by writer.old) }
    ensures same_reference { writer.new.buffer.ghost_name ≡ writer.old.buffer.ghost_name }
{
    match section {
        Some(b'b') => put_byte(writer, byte),
        Some(b'n') => put_number(writer, value),
        Some(b'e') => put_entry(writer, value),
        Some(b'u') => put_until(writer, from, value),
        _ => {}
    }
}

// A byte, where there is room.
fn put_byte(writer: &mut Writer<'_>, byte: u8)
    ensures value { given_by writer.new ≡ byte_put byte (given_by writer.old) }
    ensures same_reference { writer.new.buffer.ghost_name ≡ writer.old.buffer.ghost_name }
{
    let _ = writer.byte(byte);
}

// A stored number, where there is room.
fn put_number(writer: &mut Writer<'_>, value: u64)
    ensures value { given_by writer.new ≡ number_put value (given_by writer.old) }
    ensures same_reference { writer.new.buffer.ghost_name ≡ writer.old.buffer.ghost_name }
{
    let _ = write_number(writer, narrow(value));
}

// An entry of quota 1 with no children.
fn put_entry(writer: &mut Writer<'_>, id: u64)
    ensures value { given_by writer.new ≡ entry_put id (given_by writer.old) }
    ensures same_reference { writer.new.buffer.ghost_name ≡ writer.old.buffer.ghost_name }
{
    put_number(&mut *writer, id);
    put_number(&mut *writer, 1);
    put_number(&mut *writer, 0);
}

// The bytes from a position on, again and again until there are so many, or no room.
#[tactic(auto, using(crate::proofs::Laws::until_full, crate::proofs::Laws::until_end, crate::proofs::Laws::until_at))]
fn put_until(writer: &mut Writer<'_>, from: usize, end: u64)
    ensures value { given_by writer.new ≡ bytes_until end from (given_by writer.old) }
    ensures same_reference { writer.new.buffer.ghost_name ≡ writer.old.buffer.ghost_name }
{
    let at = writer.at;
    if from < at {
        let room = writer.buffer.len();
        for n in at..end.min(room as u64) as usize {
            let byte = writer.buffer[n - (at - from)];
            put_byte(&mut *writer, byte);
        }
    }
}
