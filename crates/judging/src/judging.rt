// The refusals 20 to 26, one after another.
ghost use Rattle.std.specs.Prelude.{◌≡◌, get_or};
ghost use Rattle.rules.specs.Says.{says};
ghost use Rattle.judging.specs.Ids.{times_in, some_id};
ghost use Rattle.judging.specs.Judging.{taken_in, judged_in};

use crate::collecting::others_differ;
use distinct::ids_differ;
use rules::Refusal;
use table::place_of;

// How often x stands in a column.
#[tactic(auto, using(crate::proofs::Ids::times_count))]
fn times(column: &[u32], x: u32) -> usize
    ensures { result ≡ times_in x column.now }
{
    column.iter().filter(|y| x == **y).count()
}

// 22, for one entry's id: it isn't the exploded one, and it is in the table.
#[tactic(auto, using(crate::proofs::Ids::taken_there))]
fn id_taken(id: &[u32], exploded: u32, x: u32) -> bool
    ensures { result ≡ taken_in exploded id.now x }
{
    x != exploded && id.contains(&x)
}

// Each rule takes the numbers that its definition speaks of: a struct of the table's ids, the exploded id and the entries' ids would hide which.
// 22: another entry's id is in the table.
fn some_id_taken(id: &[u32], exploded: u32, ids: &[u32]) -> bool
    ensures { result ≡ some_id (taken_in exploded id.now) ids.now }
{
    ids.iter().any(|x| id_taken(id, exploded, *x))
}

// What a column has at row i, or 0 where it has no such row, as the definitions have it.
fn value_at(column: &[u32], i: usize) -> u32
    ensures { result ≡ get_or column.now i 0 }
{
    column.get(i).copied().unwrap_or(0)
}

// 20, 21, 22, 26, 23 and 24 in that order, for a request that was read. `id` and `q` are the rows in use of a table whose columns have
// `room` rows, `ids` are the ids of the entries, and `quota` is all their quota. Where the quick test says nothing, 22 and 26 are looked for;
// as the exploded id comes once, 26 is that the entries' ids do not all differ.
#[tactic(auto, unfolding(crate::specs::Judging::judged_in), using(crate::proofs::Differing::none_taken, crate::proofs::Differing::none_twice, crate::proofs::Differing::twice_is, crate::proofs::Ids::times_most))]
pub fn judge(
    id: &[u32],
    q: &[u32],
    room: usize,
    exploded: u32,
    ids: &[u32],
    quota: u64,
) -> Result<usize, Refusal>
    ensures { says result ≡ judged_in id.now q.now room exploded ids.now quota }
{
    let own = place_of(id, id.len(), exploded);
    if own == id.len() {
        return Err(Refusal::IdUnknown);
    }
    if times(ids, exploded) != 1 {
        return Err(Refusal::ExplodedEntry);
    }
    if !others_differ(id, exploded, ids) {
        if some_id_taken(id, exploded, ids) {
            return Err(Refusal::IdTaken);
        }
        if !ids_differ(ids) {
            return Err(Refusal::IdTwice);
        }
    }
    if quota != u64::from(value_at(q, own)) {
        return Err(Refusal::QuotaSum);
    }
    if room < id.len() + ids.len() - 1 {
        return Err(Refusal::RowsFull);
    }
    Ok(own)
}
