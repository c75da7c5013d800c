// A coordinate. Its number is private to this module, and l-values and r-values are types of their own.
ghost use Rattle.std.specs.Prelude.{◌≡◌, ◌+◌};
ghost use Rattle.coordinates.specs.Coordinates.{value_of, within, apart, at_most, column_with, past, onward};

use rules::GREATEST;

// An l-value, or an r-value (`OF_R`). 64 bits: a box may end at 4294967295, and what is left of it then begins one past that.
#[derive(Clone, Copy)]
pub struct Coordinate<const OF_R: bool>(u64);

pub type LValue = Coordinate<false>;

pub type RValue = Coordinate<true>;

impl<const OF_R: bool> Coordinate<OF_R> {
    // The coordinate of a number.
    pub fn new(n: u64) -> Self
        ensures { result ≡ value_of n }
    {
        Coordinate(n)
    }

    // No PartialOrd, which would bring sorting, a least and a greatest along: none means anything in the plane.
    pub fn at_most(self, other: Self) -> bool
        ensures { result ≡ at_most self.entry.0 other.entry.0 }
    {
        self.0 <= other.0
    }

    // Writes it to a place of a column, where it is at most the greatest number and the column has the place.
    #[tactic(auto, unfolding(crate::specs::Coordinates::column_with))]
    pub fn write(self, column: &mut [u32], i: usize)
        ensures { column.new ≡ column_with column.old i self.entry.0 }
    {
        if self.0 <= GREATEST as u64 {
            if i < column.len() {
                column[i] = self.0 as u32;
            }
        }
    }

    // Of the ranges of q numbers from here on and of p numbers from there on, the second lies in the first.
    #[tactic(auto, unfolding(crate::specs::Coordinates::within))]
    pub fn encloses(self, q: u64, there: Self, p: u64) -> bool
        ensures { result ≡ within self.entry.0 q there.entry.0 p }
    {
        if self.0 <= there.0 {
            let from = there.0 - self.0;
            if from <= q {
                return p <= q - from;
            }
        }
        false
    }

    // They are disjoint: the one that begins first ends before the other begins.
    #[tactic(auto, unfolding(crate::specs::Coordinates::apart))]
    pub fn apart_from(self, q: u64, there: Self, p: u64) -> bool
        ensures { result ≡ apart self.entry.0 q there.entry.0 p }
    {
        if self.0 <= there.0 {
            return q <= there.0 - self.0;
        }
        p <= self.0 - there.0
    }

    // The coordinate n numbers on is past 64 bits.
    pub fn passes(self, n: u64) -> bool
        ensures { result ≡ past (self.entry.0 + n) }
    {
        u64::MAX - self.0 < n
    }

    // The coordinate n numbers on; past 64 bits it wraps.
    pub fn plus(self, n: u64) -> Self
        ensures { result ≡ value_of (onward self.entry.0 n) }
    {
        Coordinate(self.0.wrapping_add(n))
    }
}

impl<const OF_R: bool> From<u32> for Coordinate<OF_R> {
    ghost from_gives = { λ n c. c ≡ value_of n };

    fn from(n: u32) -> Self {
        Coordinate::new(u64::from(n))
    }
}
