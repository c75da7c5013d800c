// Boxes two by two. The columns stay three slices, as a table lends them: no heap, and the quick tests go over two of them at a time.
ghost use Rattle.std.specs.Prelude.{◌≡◌, ◌<◌, length};
ghost use Rattle.separate.specs.Separate.{boxes_of, all_disjoint};
ghost use Rattle.separate.specs.Inside.Pairs.{BoxesAbove};

use crate::certifying::ranges_certified;
use boxes::Box;

// Fewer rows than these are sooner compared two by two.
pub(crate) const MANY_ROWS: usize = 8;

// One of the boxes above row i's meets it.
fn box_above(l: &[u32], r: &[u32], q: &[u32], i: usize) -> bool
    requires { (i < length l.now) × (i < length r.now) × (i < length q.now) }
    ensures { BoxesAbove l.now r.now q.now i result }
{
    let own = Box::new(l[i], r[i], q[i]);
    for j in 0..i {
        if !Box::new(l[j], r[j], q[j]).disjoint(own) {
            return true;
        }
    }
    false
}

// Every two of the columns' boxes are disjoint in l and in r. Where the quick tests say nothing, the pairs decide: each row with those
// above it.
pub fn boxes_separate(l: &[u32], r: &[u32], q: &[u32]) -> bool
    ensures { result ≡ all_disjoint (boxes_of l.now r.now q.now) }
{
    if ranges_certified(l, q) {
        if ranges_certified(r, q) {
            return true;
        }
    }
    for i in 0..l.len().min(r.len()).min(q.len()) {
        if box_above(l, r, q, i) {
            return false;
        }
    }
    true
}
