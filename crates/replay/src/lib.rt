// Carrying a log out (RULES.md, 14.1): the fresh table, the requests one after another, and the text that is printed.
#![tactic(auto)]

ghost use Rattle.std.specs.Prelude.{◌≡◌, false, ◌+◌, ◌*◌, ◌-◌, ◌≤◌, length};
ghost use Rattle.rules.specs.Buffers.{after};
ghost use Rattle.rules.specs.Says.{says};
ghost use Rattle.table.specs.Columns.{columns};
ghost use Rattle.writer.specs.Writing.{HasRoom, WroteAll};
ghost use Rattle.lines.specs.Lines.{line_text, columns_bad};
ghost use Rattle.request_log.specs.Room.{line_room, table_room};
ghost use Rattle.replay.specs.Replay.{grow_answer, grow_buffer, grow_table};
ghost use Rattle.replay.specs.Inside.Carrying.{Countable, carried, Begun};

use fresh::fresh;
use lines::{write_line, write_table};
use refine::refine;
use request_log::{no_room, pair_of, part_at};
use rules::Refusal;
use writer::Writer;

// Writes a request's line, at most 14 bytes, for which there is room.
fn write_answer(writer: &mut Writer<'_>, a: Result<usize, Refusal>)
    requires line_room_in_bounds { HasRoom writer.old line_room }
    requires countable { Countable (says a) }
    ensures { WroteAll writer.old writer.new (line_text (says a)) }
{
    let line = a.map(|n| n as u32);
    let _ = write_line(writer, line);
}

// Carries out the requests from a position of the log on, and writes a line for each and then the table; answers how many bytes. The writer
// stands at the buffer's start. The log is walked by a position, and not by an iterator of its parts: the definition goes by positions too, and
// a part is read only once the request before it is carried out. The columns are four slices: a struct of them would be taken apart again for
// each call of `refine`.
fn carry_out(
    log: &[u8],
    from: usize,
    id: &mut [u32],
    l: &mut [u32],
    r: &mut [u32],
    q: &mut [u32],
    writer: &mut Writer<'_>,
) -> usize
    requires q_value { columns_bad (columns id.old l.old r.old q.old) 1 ≡ false }
    requires from_in_bounds { from ≤ length log.now }
    requires start { writer.old.at ≡ 0 }
    requires table_room_in_bounds { line_room * (length log.now - from) + table_room ≤ length writer.old.buffer.now }
    ensures value { result ≡ length (carried (columns id.old l.old r.old q.old) log.now from).text }
    ensures text_value { writer.new.buffer.now ≡ after writer.old.buffer.now 0 (carried (columns id.old l.old r.old q.old) log.now from).text }
    ensures same_reference { writer.new.buffer.ghost_name ≡ writer.old.buffer.ghost_name }
    ensures q_value_2 { columns id.new l.new r.new q.new ≡ (carried (columns id.old l.old r.old q.old) log.now from).table.columns }
{
    let mut at = from;
    let mut count = 1;
    while at < log.len() {
        match part_at(log, at) {
            Err(why) => {
                write_answer(&mut *writer, Err(why));
                at = log.len();
            }
            Ok(part) => {
                let request = &log[part.start..part.end];
                let a = refine(&mut *id, &mut *l, &mut *r, &mut *q, count, request);
                write_answer(&mut *writer, a);
                count = a.unwrap_or(count);
                at = part.end;
            }
        }
    }
    let lines = writer.at;
    lines + write_table(&mut *writer, &*id, &*l, &*r, &*q, count).unwrap_or(0)
}

// The fresh table that a log begins with: the position after its pair.
fn begin(
    log: &[u8],
    id: &mut [u32],
    l: &mut [u32],
    r: &mut [u32],
    q: &mut [u32],
) -> Result<usize, Refusal>
    ensures { Begun (columns id.old l.old r.old q.old) log.now (columns id.new l.new r.new q.new) result }
{
    let pair = pair_of(log)?;
    fresh(id, l, r, q, pair.id, pair.quota)?;
    Ok(pair.next)
}

// Carries out a log on the columns, writes what it says as text and answers how many bytes that is; where the buffer is shorter than 14 bytes
// for each byte of the log and 16384 for the table there is no room, nothing is written, and there is no answer.
pub fn grow(
    log: &[u8],
    id: &mut [u32],
    l: &mut [u32],
    r: &mut [u32],
    q: &mut [u32],
    text: &mut [u8],
) -> Option<usize>
    ensures value { result ≡ grow_answer (columns id.old l.old r.old q.old) log.now text.old }
    ensures text_value { text.new ≡ grow_buffer (columns id.old l.old r.old q.old) log.now text.old }
    ensures q_value { columns id.new l.new r.new q.new ≡ grow_table (columns id.old l.old r.old q.old) log.now text.old }
{
    if no_room(log.len(), text.len()) {
        return None;
    }
    let mut writer = Writer::new(text, 0);
    match begin(log, &mut *id, &mut *l, &mut *r, &mut *q) {
        Err(why) => {
            write_answer(&mut writer, Err(why));
            Some(writer.at)
        }
        Ok(next) => Some(carry_out(log, next, id, l, r, q, &mut writer)),
    }
}
