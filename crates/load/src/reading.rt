// The bytes of a table, row by row.
ghost use Rattle.std.specs.Prelude.{◌≡◌, ◌≤◌, length};
ghost use Rattle.rules.specs.Says.{says};
ghost use Rattle.rules.specs.Capacities.{row_capacity};
ghost use Rattle.table.specs.Columns.{columns, overlay, counted, afterwards};
ghost use Rattle.stored.specs.Stored.{row_read, rows_at, rows_to_end, read_rows};
ghost use Rattle.load.specs.Work.{work_columns, rows_said, rows_unchecked};

use crate::work::Work;
use number::number_at;
use rules::Refusal;
use stored::RowRead;
use table::{Row, check_columns, count_bad, lengths_bad};

// By positions, as the definitions of a stored table go: a reader would be one crate more below this one, for the four draws of a row.
// The row at a position: 1, 2.
#[tactic(auto, unfolding(stored::specs::Stored::row_read))]
fn row_at(bytes: &[u8], at: usize) -> Result<RowRead, Refusal>
    ensures { says result ≡ row_read bytes.now at }
{
    let id = number_at(bytes, at)?;
    let l = number_at(bytes, id.next)?;
    let r = number_at(bytes, l.next)?;
    let q = number_at(bytes, r.next)?;
    Ok(RowRead {
        row: Row {
            id: id.value,
            l: l.value,
            r: r.value,
            q: q.value,
        },
        next: q.next,
    })
}

// Reads `count` rows from a position on into work columns, and answers the position after them.
fn rows_at(bytes: &[u8], at: usize, count: usize, work: &mut Work) -> Result<usize, Refusal>
    requires { count ≤ row_capacity }
    ensures { rows_said (says result) (work_columns work.new) count ≡ rows_at count bytes.now at }
{
    let mut next = at;
    for i in 0..count {
        let read = row_at(bytes, next)?;
        work.set(i, read.row);
        next = read.next;
    }
    Ok(next)
}

// Reads rows into work columns, from a position to the bytes' end: 1, 2, then 6.
#[tactic(auto, unfolding(stored::specs::Stored::rows_to_end))]
fn rows_to_end(bytes: &[u8], at: usize, count: usize, work: &mut Work) -> Result<(), Refusal>
    requires { count ≤ row_capacity }
    ensures { rows_unchecked (says result) (work_columns work.new) count ≡ rows_to_end count bytes.now at }
{
    let end = rows_at(bytes, at, count, work)?;
    if end < bytes.len() {
        return Err(Refusal::BytesRemain);
    }
    Ok(())
}

// Copies values to the top of a column.
fn copy(column: &mut [u32], values: &[u32])
    requires { length values.now ≤ length column.old }
    ensures { column.new ≡ overlay values.now column.old }
{
    column[..values.len()].copy_from_slice(values);
}

// The columns are four slices, as a host lends them and document 01 names them.
// Reads a table in: 10 for lengths, the count, 10 for the count, the rows, 6 where bytes remain, then 11, 12, 13.
// A refused read changes no column: no row is copied.
pub fn read(
    id: &mut [u32],
    l: &mut [u32],
    r: &mut [u32],
    q: &mut [u32],
    bytes: &[u8],
) -> Result<usize, Refusal>
    ensures result_value { says result ≡ counted (read_rows (columns id.old l.old r.old q.old) bytes.now) }
    ensures q_value { columns id.new l.new r.new q.new ≡ afterwards (read_rows (columns id.old l.old r.old q.old) bytes.now) (columns id.old l.old r.old q.old) }
{
    if lengths_bad(&*id, &*l, &*r, &*q) {
        return Err(Refusal::Columns);
    }
    let first = number_at(bytes, 0)?;
    let count = first.value as usize;
    if count_bad(id.len(), count) {
        return Err(Refusal::Columns);
    }
    let mut work = Work::new();
    rows_to_end(bytes, first.next, count, &mut work)?;
    let rows = check_columns(&work.id, &work.l, &work.r, &work.q, count)?;
    // From the work columns themselves: of their place a compiler knows that it is none of the caller's, and asks for no `memmove`.
    copy(id, &work.id[..count]);
    copy(l, &work.l[..count]);
    copy(r, &work.r[..count]);
    copy(q, &work.q[..count]);
    Ok(rows.len())
}
