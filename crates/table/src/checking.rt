// The check of the columns: 10, then 11 over all rows, 12 over all pairs, 13 over all pairs.
ghost use Rattle.std.specs.Prelude.{◌≡◌, IfOk};
ghost use Rattle.rules.specs.Answers.{given};
ghost use Rattle.rules.specs.Says.{says};
ghost use Rattle.table.specs.Columns.{columns};
ghost use Rattle.table.specs.Check.{some_row, value_bad, sound_rows, checked};
ghost use Rattle.table.specs.InUse.{rows_of, found, Cut};

use crate::Row;
use crate::in_use::RowsInUse;
use boxes::Box;
use distinct::ids_differ;
use rules::{GREATEST, Refusal};
use separate::boxes_separate;

// 11: a value 0, or a range past the greatest number. A row's box is in the plane from 1 to that number.
fn value_bad(row: Row) -> bool
    ensures { result ≡ value_bad row }
{
    let plane = Box::new(1, 1, GREATEST);
    (row.id == 0) | ((row.q == 0) | !plane.contains(Box::new(row.l, row.r, row.q)))
}

fn some_value_bad(rows: RowsInUse<'_>) -> bool
    ensures { result ≡ some_row value_bad (rows_of rows.entry) }
{
    rows.into_iter().any(value_bad)
}

// 11, 12 and 13 of the rows in use.
fn check_rows(rows: RowsInUse<'_>) -> Result<(), Refusal>
    ensures { says result ≡ given (sound_rows (rows_of rows.entry)) }
{
    if some_value_bad(rows) {
        return Err(Refusal::RowValue);
    }
    if !ids_differ(rows.id()) {
        return Err(Refusal::RowIds);
    }
    if !boxes_separate(rows.l(), rows.r(), rows.q()) {
        return Err(Refusal::RowRanges);
    }
    Ok(())
}

// The columns are four slices, as a host lends them and document 01 names them.
// The rows in use, where the columns hold a sound table of `count` rows: 10, 11, 12, 13.
pub fn check_columns<'a>(
    id: &'a [u32],
    l: &'a [u32],
    r: &'a [u32],
    q: &'a [u32],
    count: usize,
) -> Result<RowsInUse<'a>, Refusal>
    ensures rows { found result ≡ checked (columns id.now l.now r.now q.now) count }
    ensures cut { IfOk result (λ rows. Cut rows (columns id.now l.now r.now q.now) count) }
{
    let rows = RowsInUse::of(id, l, r, q, count)?;
    check_rows(rows)?;
    Ok(rows)
}
