// Boxes in the l–r plane: a group's l range and r range (RULES.md, 3).
#![tactic(auto)]

ghost use Rattle.std.specs.Prelude.{◌≡◌};
ghost use Rattle.boxes.specs.Boxes.{box_of, contains, disjoint, next_child, corner_cut};

use coordinates::{LValue, RValue};

// A group's box: the l range from l to l + quota - 1, and the r range from r to r + quota - 1.
#[derive(Clone, Copy)]
pub struct Box {
    pub l: LValue,
    pub r: RValue,
    pub quota: u64,
}

// A part cut off a box, and what is left.
#[derive(Clone, Copy)]
pub struct Cut {
    pub part: Box,
    pub rest: Box,
}

impl Box {
    // The box of a row.
    pub fn new(l: u32, r: u32, quota: u32) -> Box
        ensures { result ≡ box_of l r quota }
    {
        Box {
            l: LValue::from(l),
            r: RValue::from(r),
            quota: u64::from(quota),
        }
    }

    // The other box lies in this one.
    #[tactic(auto, unfolding(crate::specs::Boxes::contains))]
    pub fn contains(self, other: Box) -> bool
        ensures { result ≡ contains self other }
    {
        self.l.encloses(self.quota, other.l, other.quota)
            && self.r.encloses(self.quota, other.r, other.quota)
    }

    // The boxes have disjoint l ranges and disjoint r ranges.
    #[tactic(auto, unfolding(crate::specs::Boxes::disjoint))]
    pub fn disjoint(self, other: Box) -> bool
        ensures { result ≡ disjoint self other }
    {
        self.l.apart_from(self.quota, other.l, other.quota)
            && self.r.apart_from(self.quota, other.r, other.quota)
    }

    // The next child, cut off along the falling diagonal: it takes the lowest l part and the highest r part. None where the box has less
    // than its quota, or lies past 64 bits.
    pub fn next_child(self, quota: u64) -> Option<Cut>
        ensures { result ≡ next_child self quota }
    {
        if self.quota < quota {
            return None;
        }
        let l = self.l;
        let r = self.r;
        let left = self.quota - quota;
        if l.passes(quota) | r.passes(left) {
            return None;
        }
        Some(Cut {
            part: Box {
                l,
                r: r.plus(left),
                quota,
            },
            rest: Box {
                l: l.plus(quota),
                r,
                quota: left,
            },
        })
    }

    // A parent in the box of its subtree, cut off along the rising diagonal: it takes the low corner (upright) or the high corner
    // (inverted), and its children share what is left. None as above.
    pub fn corner(self, upright: bool, own: u64) -> Option<Cut>
        ensures { result ≡ corner_cut upright self own }
    {
        let l = self.l;
        let r = self.r;
        if (self.quota < own) | (l.passes(self.quota) | r.passes(self.quota)) {
            return None;
        }
        let inner = self.quota - own;
        if upright {
            return Some(Cut {
                part: Box { l, r, quota: own },
                rest: Box {
                    l: l.plus(own),
                    r: r.plus(own),
                    quota: inner,
                },
            });
        }
        Some(Cut {
            part: Box {
                l: l.plus(inner),
                r: r.plus(inner),
                quota: own,
            },
            rest: Box { l, r, quota: inner },
        })
    }
}
