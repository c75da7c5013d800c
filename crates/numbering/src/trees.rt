// The numbers of a request's entries: each child is cut off what is left of its parent's box.
ghost use Rattle.std.specs.Prelude.{◌≡◌, ◌≤◌};
ghost use Rattle.rules.specs.Limits.{most_entries};
ghost use Rattle.request.specs.Numbering.{lefts, rights};
ghost use Rattle.reading.specs.Inside.Work.{direction_by};
ghost use Rattle.numbering.specs.Inside.Boxed.{BoxedIn, forest_in};

use boxes::Box;
use reading::Work;

// Numbers the trees of the entries from `from` up to `to` in a box of their quota; `l` and `r` are their parts of the work columns.
// A child's own parts are lent to the call that fills them by the same rule; an entry without children has its whole box.
pub(crate) fn number_trees(
    work: &Work,
    from: usize,
    to: usize,
    upright: bool,
    area: Box,
    l: &mut [u32],
    r: &mut [u32],
)
    requires to_in_bounds { to ≤ most_entries }
    requires boxed_in { BoxedIn work.now from to area l.old r.old }
    ensures l_value { l.new ≡ lefts (direction_by upright) area.l.0 (forest_in work.now from to) }
    ensures r_value { r.new ≡ rights (direction_by upright) area.r.0 (forest_in work.now from to) }
{
    let mut p = from;
    let mut rest = area;
    // From one subtree to the next, by the ends that the columns hold: no range steps so.
    while p < to {
        let end = work.ends[p];
        let Some(child) = rest.next_child(work.sums[p]) else {
            return;
        };
        let i = p - from;
        let k = i + 1;
        let e = end - from;
        if e == k {
            child.part.l.write(l, i);
            child.part.r.write(r, i);
        } else {
            let Some(root) = child.part.corner(upright, work.quotas[p] as u64) else {
                return;
            };
            root.part.l.write(l, i);
            root.part.r.write(r, i);
            number_trees(
                work,
                p + 1,
                end,
                upright,
                root.rest,
                &mut l[k..e],
                &mut r[k..e],
            );
        }
        rest = child.rest;
        p = end;
    }
}
