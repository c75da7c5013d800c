// The table as text: a heading, and a line for each row.
ghost use Rattle.std.specs.Prelude.{◌≡◌, length};
ghost use Rattle.rules.specs.Buffers.{written};
ghost use Rattle.rules.specs.Says.{says};
ghost use Rattle.writer.specs.Writing.{HasRoom, Wrote, WroteAll};
ghost use Rattle.table.specs.Columns.{columns};
ghost use Rattle.table.specs.InUse.{rows_of};
ghost use Rattle.lines.specs.Lines.{row_text, rows_text, table_text, held_text, table_answer, table_buffer};

use crate::fields::{LINE_FEED, SPACE, field_length, write_field};
use rules::Refusal;
use table::{Row, RowsInUse};
use writer::Writer;

// Crate store has four functions like these, for a row and for the rows: one of each for both would take closures with contracts longer
// than the functions.
// How many bytes a row has, 8 to 44.
#[tactic(auto, using(text::proofs::Laws::decimal_count, crate::proofs::Laws::row_count, crate::proofs::Laws::field_count))]
fn row_length(row: Row) -> usize
    ensures { result ≡ length (row_text row) }
{
    field_length(row.id) + field_length(row.l) + field_length(row.r) + field_length(row.q)
}

// How many bytes the rows have.
fn rows_length(rows: RowsInUse<'_>) -> usize
    ensures { result ≡ length (rows_text (rows_of rows.entry)) }
{
    rows.into_iter().map(row_length).sum()
}

// Writes a row, for which there is room, as id, l, r, quota.
#[tactic(auto, using(crate::proofs::Laws::row_count))]
fn write_row(writer: &mut Writer<'_>, row: Row)
    requires { HasRoom writer.old (length (row_text row)) }
    ensures { WroteAll writer.old writer.new (row_text row) }
{
    write_field(&mut *writer, row.id, SPACE);
    write_field(&mut *writer, row.l, SPACE);
    write_field(&mut *writer, row.r, SPACE);
    write_field(&mut *writer, row.q, LINE_FEED);
}

// Writes the rows, for which there is room.
fn write_rows(writer: &mut Writer<'_>, rows: RowsInUse<'_>)
    requires { HasRoom writer.old (length (rows_text (rows_of rows))) }
    ensures { WroteAll writer.old writer.new (rows_text (rows_of rows.entry)) }
{
    for row in rows {
        write_row(&mut *writer, row);
    }
}

// Writes the heading and the rows: 30, and none of it, where the buffer is too short.
fn write_whole(writer: &mut Writer<'_>, rows: RowsInUse<'_>) -> Result<usize, Refusal>
    ensures result_value { says result ≡ written writer.old.buffer.now writer.old.at (table_text (rows_of rows.entry)) }
    ensures wrote { Wrote writer.old writer.new (table_text (rows_of rows.entry)) }
{
    let heading = b"group l r quota\n";
    let whole = heading.len() + rows_length(rows);
    if writer.too_short(whole) {
        return Err(Refusal::BufferShort);
    }
    let _ = writer.bytes(heading);
    write_rows(writer, rows);
    Ok(whole)
}

// The columns are four slices: the call tests them itself, 10, for a host that has no rows in use at hand.
// Writes the heading and each row: 10 where the columns don't hold the count, then 30, and none of it, where the buffer is too short.
pub fn write_table(
    writer: &mut Writer<'_>,
    id: &[u32],
    l: &[u32],
    r: &[u32],
    q: &[u32],
    count: usize,
) -> Result<usize, Refusal>
    ensures result_value { says result ≡ table_answer (columns id.now l.now r.now q.now) count writer.old.buffer.now writer.old.at }
    ensures buffer_value { writer.new.buffer.now ≡ table_buffer (columns id.now l.now r.now q.now) count writer.old.buffer.now writer.old.at }
    ensures wrote { Wrote writer.old writer.new (held_text (columns id.now l.now r.now q.now) count) }
{
    let rows = RowsInUse::of(id, l, r, q, count)?;
    write_whole(writer, rows)
}
