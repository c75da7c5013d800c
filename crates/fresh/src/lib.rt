// A fresh table (RULES.md, 4): one group that has the whole quota.
#![tactic(auto)]

ghost use Rattle.std.specs.Prelude.{◌≡◌};
ghost use Rattle.rules.specs.Says.{says};
ghost use Rattle.table.specs.Columns.{columns, counted, afterwards};
ghost use Rattle.fresh.specs.Fresh.{fresh_rows};

use rules::Refusal;
use table::lengths_bad;

// The columns are four slices, as a host lends them and document 01 names them.
// Writes row 0: the group with l = 1, r = 1 and the quota. 10 for lengths, then 11 for id or quota 0.
#[tactic(auto, unfolding(crate::specs::Fresh::fresh_rows))]
pub fn fresh(
    id: &mut [u32],
    l: &mut [u32],
    r: &mut [u32],
    q: &mut [u32],
    group: u32,
    quota: u32,
) -> Result<usize, Refusal>
    ensures result_value { says result ≡ counted (fresh_rows (columns id.old l.old r.old q.old) group quota) }
    ensures q_value { columns id.new l.new r.new q.new ≡ afterwards (fresh_rows (columns id.old l.old r.old q.old) group quota) (columns id.old l.old r.old q.old) }
{
    if lengths_bad(&*id, &*l, &*r, &*q) {
        return Err(Refusal::Columns);
    }
    if (group == 0) | (quota == 0) {
        return Err(Refusal::RowValue);
    }
    id[0] = group;
    l[0] = 1;
    r[0] = 1;
    q[0] = quota;
    Ok(1)
}
