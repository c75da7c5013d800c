// Ids in chains, a chain for each slot: an id is looked for in the chain of its slot alone.
ghost use Rattle.std.specs.Prelude.{◌≡◌, ◌≤◌, ◌<◌, length};
ghost use Rattle.rules.specs.Capacities.{row_capacity};
ghost use Rattle.distinct.specs.Distinct.{all_differ};
ghost use Rattle.distinct.specs.Inside.Chains.{slots, slot_of, Chained, InChain};

use rules::ROW_CAPACITY;

// How many slots there are.
const SLOTS: usize = 256;

// The slot of an id. The product spreads ids that follow a pattern.
#[tactic(auto, unfolding(crate::specs::Inside::Chains::slot_of))]
fn slot(x: u32) -> usize
    ensures { (result ≡ slot_of x) × (result < slots) }
{
    (u64::from(x) * 2654435769 / 16777216 % 256) as usize
}

// One of the first `count` ids is x, from a link of x's slot on.
fn in_chain(ids: &[u32], next: &[u16; ROW_CAPACITY], count: usize, link: usize, x: u32) -> bool
    requires { (count ≤ length ids.now) × (count ≤ row_capacity) × Chained ids.now next.now count link x }
    ensures { InChain ids.now count link x result }
{
    // The walk goes by links, and not by a count.
    let mut at = link;
    while 0 < at {
        let row = at - 1;
        if ids[row] == x {
            return true;
        }
        at = usize::from(next[row]);
    }
    false
}

// No two ids are equal: each is looked for among those above it, and then becomes the first of its chain.
pub(crate) fn ids_chained(ids: &[u32]) -> bool
    requires { length ids.now ≤ row_capacity }
    ensures { result ≡ all_differ ids.now }
{
    // No heap: chains in arrays on the stack. A link is a row and one, or 0 where a chain ends: an `Option<u16>` would take twice the memory.
    let mut head = [0u16; SLOTS];
    let mut next = [0u16; ROW_CAPACITY];
    for (i, x) in ids.iter().enumerate() {
        let s = slot(*x);
        let link = head[s];
        if in_chain(ids, &next, i, usize::from(link), *x) {
            return false;
        }
        next[i] = link;
        head[s] = (i + 1) as u16;
    }
    true
}
