// A table stored as bytes (RULES.md, 11): count, then id, l, r, q of each row.
#![tactic(auto)]

ghost use Rattle.std.specs.Prelude.{◌≡◌, length};
ghost use Rattle.rules.specs.Buffers.{written, after};
ghost use Rattle.rules.specs.Says.{says};
ghost use Rattle.writer.specs.Writing.{HasRoom, WroteAll};
ghost use Rattle.table.specs.Columns.{columns};
ghost use Rattle.table.specs.InUse.{rows_of};
ghost use Rattle.table.specs.Check.{checked};
ghost use Rattle.stored.specs.Stored.{row_bytes, rows_bytes, table_bytes, store_answer, store_buffer};

use number::{number_length, write_number};
use rules::Refusal;
use table::{Row, RowsInUse, check_columns};
use writer::Writer;

// Crate lines has four functions like these, for a row and for the rows: see there.
// How many bytes a row has, 4 to 20.
#[tactic(auto, using(number::proofs::Laws::number_count, stored::proofs::Bytes::row_count))]
fn row_length(row: Row) -> usize
    ensures { result ≡ length (row_bytes row) }
{
    number_length(row.id) + number_length(row.l) + number_length(row.r) + number_length(row.q)
}

// How many bytes the rows have.
fn rows_length(rows: RowsInUse<'_>) -> usize
    ensures { result ≡ length (rows_bytes (rows_of rows.entry)) }
{
    rows.into_iter().map(row_length).sum()
}

// Writes a row's bytes, for which there is room.
fn write_row(writer: &mut Writer<'_>, row: Row)
    requires { HasRoom writer.old (length (row_bytes row)) }
    ensures { WroteAll writer.old writer.new (row_bytes row) }
{
    let _ = write_number(&mut *writer, row.id);
    let _ = write_number(&mut *writer, row.l);
    let _ = write_number(&mut *writer, row.r);
    let _ = write_number(&mut *writer, row.q);
}

// Writes the rows' bytes, for which there is room.
fn write_rows(writer: &mut Writer<'_>, rows: RowsInUse<'_>)
    requires { HasRoom writer.old (length (rows_bytes (rows_of rows))) }
    ensures { WroteAll writer.old writer.new (rows_bytes (rows_of rows.entry)) }
{
    for row in rows {
        write_row(&mut *writer, row);
    }
}

// Stores rows that passed the check: 30, and no byte, where the buffer is shorter than the bytes needed.
fn store_rows(rows: RowsInUse<'_>, buffer: &mut [u8]) -> Result<usize, Refusal>
    ensures result_value { says result ≡ written buffer.old 0 (table_bytes (rows_of rows.entry)) }
    ensures buffer_value { buffer.new ≡ after buffer.old 0 (table_bytes (rows_of rows.entry)) }
{
    let count = rows.len() as u32;
    let whole = number_length(count) + rows_length(rows);
    if buffer.len() < whole {
        return Err(Refusal::BufferShort);
    }
    // Not refused: there is room.
    let mut writer = Writer::new(buffer, 0);
    let _ = write_number(&mut writer, count);
    write_rows(&mut writer, rows);
    Ok(whole)
}

// The columns are four slices, as a host lends them and document 01 names them.
// Stores a table: 10 to 13, then 30. Nothing is written unless all of it is.
#[tactic(auto, unfolding(stored::specs::Stored::store_answer, stored::specs::Stored::store_buffer))]
pub fn store(
    id: &[u32],
    l: &[u32],
    r: &[u32],
    q: &[u32],
    count: usize,
    buffer: &mut [u8],
) -> Result<usize, Refusal>
    ensures result_value { says result ≡ store_answer (columns id.now l.now r.now q.now) count buffer.old }
    ensures buffer_value { buffer.new ≡ store_buffer (checked (columns id.now l.now r.now q.now) count) buffer.old }
{
    let rows = check_columns(id, l, r, q, count)?;
    store_rows(rows, buffer)
}
