// The ids but the exploded one, of the table and of the entries, in one array.
ghost use Rattle.std.specs.Prelude.{◌≡◌, true, ◌++◌, ◌+◌, ◌≤◌, length};
ghost use Rattle.distinct.specs.Distinct.{all_differ};
ghost use Rattle.judging.specs.Inside.Collecting.{id_capacity, others_than, Collects};

use distinct::ids_differ;
use rules::ROW_CAPACITY;

// The ids of fewer entries than these are sooner compared as they stand.
const MANY_ENTRIES: usize = 16;

// Count + entries of a request that is accepted is at most this.
const ID_CAPACITY: usize = ROW_CAPACITY + 1;

// Puts the ids that are not the exploded one behind the first n numbers of an array. The answer is how many numbers it then has.
#[tactic(auto, using(crate::proofs::CollectingLaws::begins, crate::proofs::CollectingLaws::others_here, crate::proofs::CollectingLaws::others_past, crate::proofs::CollectingLaws::sets_more, crate::proofs::CollectingLaws::done))]
fn collect(ids: &[u32], exploded: u32, n: usize, all: &mut [u32; ID_CAPACITY]) -> usize
    requires { n + length ids.now ≤ id_capacity }
    ensures { Collects (others_than exploded ids.now) n all.old all.new result }
{
    // How many places are filled, and no index of the ids.
    let mut m = n;
    for x in ids {
        if *x != exploded {
            all[m] = *x;
            m += 1;
        }
    }
    m
}

// True only where no two of the ids but the exploded one are equal. False says nothing: it is the answer for few entries, and for more ids
// than the array holds.
#[tactic(auto, using(crate::proofs::CollectingLaws::others_most, crate::proofs::CollectingLaws::collected_length, crate::proofs::CollectingLaws::collected, crate::proofs::CollectingLaws::front_whole))]
pub(crate) fn others_differ(id: &[u32], exploded: u32, ids: &[u32]) -> bool
    ensures { result ≡ true → all_differ (others_than exploded id.now ++ others_than exploded ids.now) ≡ true }
{
    if ids.len() < MANY_ENTRIES {
        return false;
    }
    if ID_CAPACITY < id.len() + ids.len() {
        return false;
    }
    // No heap: a fixed array, and how many of its numbers are in use.
    let mut all = [0; ID_CAPACITY];
    let n = collect(id, exploded, 0, &mut all);
    let m = collect(ids, exploded, n, &mut all);
    ids_differ(&all[..m])
}
