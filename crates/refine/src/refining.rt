// Refine: the check, the request, the refusals 20 to 26, and then the rows.
ghost use Rattle.std.specs.Prelude.{◌≡◌, ◌≤◌, length};
ghost use Rattle.rules.specs.Capacities.{entry_capacity};
ghost use Rattle.rules.specs.Says.{says};
ghost use Rattle.rules.specs.Answers.{answer};
ghost use Rattle.table.specs.Check.{checked};
ghost use Rattle.table.specs.Columns.{columns, rows, counted, afterwards};
ghost use Rattle.table.specs.InUse.{Cut};
ghost use Rattle.refine.specs.Refine.{refined};
ghost use Rattle.refine.specs.Inside.Verdicts.{Settles};

use crate::Accepted;
use crate::placing::write_rows;
use judging::judge;
use numbering::{Numbered, number_request};
use rules::Refusal;
use table::{RowsInUse, check_columns};

// The request, and 20 to 26, of rows in use that were checked, without a write to the table. The request's entries are left in `numbered`.
fn judge_request(
    id: &[u32],
    l: &[u32],
    r: &[u32],
    q: &[u32],
    sound: RowsInUse<'_>,
    request: &[u8],
    numbered: &mut Numbered,
) -> Result<Accepted, Refusal>
    requires cut { Cut sound (columns id.now l.now r.now q.now) (length sound.id.now) }
    requires good { checked (columns id.now l.now r.now q.now) (length sound.id.now) ≡ answer (rows (columns id.now l.now r.now q.now) (length sound.id.now)) }
    requires ids_len { (length numbered.old.work.ids ≡ entry_capacity) × (length numbered.old.work.quotas ≡ entry_capacity) }
    requires l_len { (length numbered.old.l ≡ entry_capacity) × (length numbered.old.r ≡ entry_capacity) }
    ensures { Settles (columns id.now l.now r.now q.now) (length sound.entry.id.now) request.now numbered.new.work.ids numbered.new.work.quotas numbered.new.l numbered.new.r result }
{
    let read = number_request(request, numbered)?;
    let ids = &numbered.work.ids[..read.entries];
    let own = judge(
        sound.id(),
        sound.q(),
        id.len(),
        read.exploded,
        ids,
        read.quota,
    )?;
    let old = sound.get(own).unwrap();
    Ok(Accepted {
        exploded: read.exploded,
        own,
        old,
        next: sound.len(),
        entries: read.entries,
    })
}

// Explodes a group into the entries of a request: 10 to 13, the request from left to right, then 20, 21, 22, 26, 23, 24. Accepted, the
// exploded id keeps its row, the other entries take the next rows, and the answer is the new count; refused, no column changes. The columns are
// four slices, here and below: a host lends each apart, and each is written by a call of its own.
pub fn refine(
    id: &mut [u32],
    l: &mut [u32],
    r: &mut [u32],
    q: &mut [u32],
    count: usize,
    request: &[u8],
) -> Result<usize, Refusal>
    ensures result_value { says result ≡ counted (refined (columns id.old l.old r.old q.old) count request.now) }
    ensures q_value { columns id.new l.new r.new q.new ≡ afterwards (refined (columns id.old l.old r.old q.old) count request.now) (columns id.old l.old r.old q.old) }
{
    let rows = check_columns(&*id, &*l, &*r, &*q, count)?;
    // Only now, so that columns that are refused cost no work columns.
    let mut numbered = Numbered::new();
    let accepted = judge_request(&*id, &*l, &*r, &*q, rows, request, &mut numbered)?;
    write_rows(id, l, r, q, accepted, &numbered);
    Ok(accepted.next + accepted.entries - 1)
}
