// The rows of an accepted request, written column by column.
ghost use Rattle.std.specs.Prelude.{◌≡◌, length};
ghost use Rattle.table.specs.Columns.{columns};
ghost use Rattle.refine.specs.Inside.Placing.{placed, placed_all, HasRows, Bounded, CanPlace};

use crate::Accepted;
use numbering::Numbered;

// Writes the entries' values, with `base` added, into one column: that of the exploded id at its row, the others at the next rows.
fn place(column: &mut [u32], accepted: Accepted, base: u32, ids: &[u32], values: &[u32])
    requires same_length { length values.now ≡ length ids.now }
    requires has_rows { HasRows accepted.exploded accepted.own accepted.next ids.now column.old }
    requires bounded { Bounded base values.now }
    ensures { column.new ≡ placed accepted.exploded accepted.own accepted.next base ids.now values.now column.old }
{
    // The next row to fill, and no index of the entries.
    let mut row = accepted.next;
    for (x, value) in ids.iter().zip(values) {
        if *x == accepted.exploded {
            column[accepted.own] = base + *value;
        } else {
            column[row] = base + *value;
            row += 1;
        }
    }
}

// Writes the entries into all four columns.
pub(crate) fn write_rows(
    id: &mut [u32],
    l: &mut [u32],
    r: &mut [u32],
    q: &mut [u32],
    accepted: Accepted,
    numbered: &Numbered,
)
    requires { CanPlace accepted numbered.now.work.ids numbered.now.work.quotas numbered.now.l numbered.now.r (columns id.old l.old r.old q.old) }
    ensures { columns id.new l.new r.new q.new ≡ placed_all accepted numbered.now.work.ids numbered.now.work.quotas numbered.now.l numbered.now.r (columns id.old l.old r.old q.old) }
{
    let n = accepted.entries;
    let old = accepted.old;
    let ids = &numbered.work.ids[..n];
    place(id, accepted, 0, ids, ids);
    place(l, accepted, old.l, ids, &numbered.l[..n]);
    place(r, accepted, old.r, ids, &numbered.r[..n]);
    place(q, accepted, 0, ids, &numbered.work.quotas[..n]);
}
