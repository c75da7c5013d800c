// Which grants apply to a pass and a feature (RULES.md, 9), and whether the pass and the day can be asked about.
#![tactic(auto)]

ghost use Rattle.std.specs.Prelude.{◌≡◌, not, ◌&&◌, ◌||◌, eqb, leb, ltb};
ghost use Rattle.grant.specs.Says.{grant_of};
ghost use Rattle.matching.specs.Matching.{pass_bad, pass, covers, applies_to, window};

use coordinates::{LValue, RValue};
use grant::Grant;

// A pass: it stands at a group's numbers.
#[derive(Clone, Copy)]
pub struct Pass {
    pub l: LValue,
    pub r: RValue,
}

// The days of a grant.
#[derive(Clone, Copy)]
pub struct Window {
    pub first: u32,
    // 0 means open, without an end: the bytes of a grant say it so.
    pub last: u32,
}

// 15, without a feature: pass l or r, or day is 0. Apart from the pass: where a feature is asked about, it is tested with it, so that a pass
// made by its test would only make a second place of the same refusal.
pub fn pass_bad(l: u32, r: u32, day: u32) -> bool
    ensures { result ≡ pass_bad l r day }
{
    (l == 0) | ((r == 0) | (day == 0))
}

impl Pass {
    pub fn new(l: u32, r: u32) -> Pass
        ensures { result ≡ pass l r }
    {
        Pass {
            l: LValue::from(l),
            r: RValue::from(r),
        }
    }

    // A grant covers the pass, whatever its feature: the pass stands at or below its numbers.
    pub fn covered_by(self, g: Grant) -> bool
        ensures { result ≡ covers self.l.0 self.r.0 (grant_of g) }
    {
        self.l.at_most(g.l) & self.r.at_most(g.r)
    }

    // A grant applies to the pass and a feature.
    #[tactic(auto, unfolding(crate::specs::Matching::applies_to))]
    pub fn granted(self, feature: u32, g: Grant) -> bool
        ensures { result ≡ applies_to feature self.l.0 self.r.0 (grant_of g) }
    {
        (g.feature == feature) & self.covered_by(g)
    }
}

// What a window says of a day. The contracts spell out what renewals defines, which stands on this crate.
impl Window {
    pub fn is_open(self) -> bool
        ensures { result ≡ eqb self.last 0 }
    {
        self.last == 0
    }

    pub fn runs(self, day: u32) -> bool
        ensures { result ≡ (leb self.first day && (eqb self.last 0 || leb day self.last)) }
    {
        (self.first <= day) & (self.is_open() | (day <= self.last))
    }

    pub fn has_ended(self, day: u32) -> bool
        ensures { result ≡ (not (eqb self.last 0) && ltb self.last day) }
    {
        !self.is_open() & (self.last < day)
    }

    pub fn yet_to_begin(self, day: u32) -> bool
        ensures { result ≡ ltb day self.first }
    {
        day < self.first
    }
}

impl From<Grant> for Window {
    ghost from_gives = { λ g w. w ≡ window (grant_of g) };

    fn from(g: Grant) -> Window {
        Window {
            first: g.first,
            last: g.last,
        }
    }
}
