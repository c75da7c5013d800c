// The rows in use of four columns, row by row.
ghost use Rattle.std.specs.Prelude.{◌≡◌, ◌≤◌, length};
ghost use Rattle.rules.specs.Limits.{most_rows};

use crate::Row;
use crate::columns::{count_bad, lengths_bad};
use rules::Refusal;

// The columns, cut to the count. All four have one length, which is at most 256.
// They are four slices and not one of rows, since they are the ones that a host lends: nothing is copied.
#[derive(Clone, Copy)]
pub struct RowsInUse<'a> {
    id: &'a [u32],
    l: &'a [u32],
    r: &'a [u32],
    q: &'a [u32],
    pub ghost same_l: { length l.now ≡ length id.now },
    pub ghost same_r: { length r.now ≡ length id.now },
    pub ghost same_q: { length q.now ≡ length id.now },
    pub ghost few: { length id.now ≤ most_rows },
}

impl<'a> RowsInUse<'a> {
    ghost use Rattle.std.specs.Prelude.{IfOk, ltb, cond, Some, None};
    ghost use Rattle.table.specs.Columns.{columns, row_at};
    ghost use Rattle.table.specs.Check.{in_use};
    ghost use Rattle.table.specs.InUse.{columns_of, found, Cut};

    // The rows in use of columns whose lengths and count fit: 10.
    pub fn of(
        id: &'a [u32],
        l: &'a [u32],
        r: &'a [u32],
        q: &'a [u32],
        count: usize,
    ) -> Result<RowsInUse<'a>, Refusal>
        ensures rows { found result ≡ in_use (columns id.now l.now r.now q.now) count }
        ensures cut { IfOk result (λ rows. Cut rows (columns id.now l.now r.now q.now) count) }
    {
        if lengths_bad(id, l, r, q) {
            return Err(Refusal::Columns);
        }
        if count_bad(id.len(), count) {
            return Err(Refusal::Columns);
        }
        Ok(RowsInUse {
            id: &id[..count],
            l: &l[..count],
            r: &r[..count],
            q: &q[..count],
        })
    }

    // How many rows there are.
    pub fn len(self) -> usize
        ensures { result ≡ length self.entry.id.now }
    {
        self.id.len()
    }

    // The column of the ids.
    pub fn id(self) -> &'a [u32]
        ensures { result.now ≡ self.entry.id.now }
    {
        self.id
    }

    // The column of the l-values.
    pub fn l(self) -> &'a [u32]
        ensures { result.now ≡ self.entry.l.now }
    {
        self.l
    }

    // The column of the r-values.
    pub fn r(self) -> &'a [u32]
        ensures { result.now ≡ self.entry.r.now }
    {
        self.r
    }

    // The column of the quotas.
    pub fn q(self) -> &'a [u32]
        ensures { result.now ≡ self.entry.q.now }
    {
        self.q
    }

    // Row i, or none where there are fewer.
    pub fn get(self, i: usize) -> Option<Row>
        ensures { result ≡ cond (ltb i (length self.entry.id.now)) (Some (row_at (columns_of self.entry) i)) None }
    {
        if self.id.len() <= i {
            return None;
        }
        Some(Row {
            id: self.id[i],
            l: self.l[i],
            r: self.r[i],
            q: self.q[i],
        })
    }
}

impl<'a> IntoIterator for RowsInUse<'a> {
    ghost use Rattle.table.specs.InUse.{rows_of, rows_left};

    type Item = Row;

    type IntoIter = RowIter<'a>;

    ghost into_iter_gives = { λ rows it. rows_left it ≡ rows_of rows };

    fn into_iter(self) -> RowIter<'a> {
        RowIter { rows: self, at: 0 }
    }
}

// The rows in use from one of them on. One index stands for four iterators, which would all be at one place.
#[derive(Clone, Copy)]
pub struct RowIter<'a> {
    rows: RowsInUse<'a>,
    at: usize,
}

impl<'a> Iterator for RowIter<'a> {
    ghost use Rattle.std.specs.Iterator.{YieldsFirst, item_count};
    ghost use Rattle.table.specs.InUse.{rows_left};

    type Item = Row;

    ghost next_gives = { YieldsFirst rows_left };

    ghost remaining = { item_count rows_left };

    fn next(&mut self) -> Option<Row> {
        let row = self.rows.get(self.at)?;
        self.at += 1;
        Some(row)
    }
}
