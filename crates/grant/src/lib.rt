// Grants and how they are read (RULES.md, 9).
#![tactic(auto)]

ghost use Rattle.std.specs.Prelude.{◌≡◌};
ghost use Rattle.grant.specs.Grant.{grant, grant_bad, checked_grant, grant_at};
ghost use Rattle.grant.specs.Says.{grant_says};
ghost use Rattle.grant.specs.Items.{item_says, items_left, items_of};
ghost use Rattle.std.specs.Iterator.{YieldsFirstBy, item_count};

use coordinates::{LValue, RValue};
use number::number_at;
use rules::Refusal;

// A grant as it is read.
#[derive(Clone, Copy)]
pub struct Grant {
    pub feature: u32,
    // The group's numbers.
    pub l: LValue,
    pub r: RValue,
    // The first day, and the last; last day 0 means open: the bytes of a grant say it so, and each rule does.
    pub first: u32,
    pub last: u32,
}

// A grant that stands in bytes, and the position after it.
#[derive(Clone, Copy)]
pub struct GrantRead {
    pub grant: Grant,
    pub next: usize,
}

// 14: feature, l, r or first is 0, or last is not 0 and below first. Of numbers: a coordinate doesn't tell its own.
#[tactic(auto, unfolding(crate::specs::Grant::grant_bad))]
fn grant_bad(feature: u32, l: u32, r: u32, first: u32, last: u32) -> bool
    ensures { result ≡ grant_bad (grant feature l r first last) }
{
    if (feature == 0) | ((l == 0) | ((r == 0) | (first == 0))) {
        return true;
    }
    if last == 0 {
        return false;
    }
    last < first
}

// A grant whose five numbers are read: 14. They come one by one, since they are no grant before that.
#[tactic(auto, unfolding(crate::specs::Grant::checked_grant))]
fn checked_grant(
    feature: u32,
    l: u32,
    r: u32,
    first: u32,
    last: u32,
    next: usize,
) -> Result<GrantRead, Refusal>
    ensures { grant_says result ≡ checked_grant (grant feature l r first last) next }
{
    if grant_bad(feature, l, r, first, last) {
        return Err(Refusal::Grant);
    }
    let grant = Grant {
        feature,
        l: LValue::from(l),
        r: RValue::from(r),
        first,
        last,
    };
    Ok(GrantRead { grant, next })
}

// The grant at a position: 1, 2, then 14.
#[tactic(auto, unfolding(crate::specs::Grant::grant_at))]
#[inline(always)]
pub fn grant_at(bytes: &[u8], at: usize) -> Result<GrantRead, Refusal>
    ensures { grant_says result ≡ grant_at bytes.now at }
{
    let feature = number_at(bytes, at)?;
    let l = number_at(bytes, feature.next)?;
    let r = number_at(bytes, l.next)?;
    let first = number_at(bytes, r.next)?;
    let last = number_at(bytes, first.next)?;
    checked_grant(
        feature.value,
        l.value,
        r.value,
        first.value,
        last.value,
        last.next,
    )
}

// What is left of a grant list: its grants one after another, each read as it is asked for. One that is refused is the last.
#[derive(Clone, Copy)]
pub struct Grants<'a> {
    bytes: &'a [u8],
    at: usize,
}

impl<'a> Grants<'a> {
    // A whole list.
    pub fn new(bytes: &'a [u8]) -> Grants<'a>
        ensures { items_left result ≡ items_of bytes.now }
    {
        Grants { bytes, at: 0 }
    }
}

impl<'a> Iterator for Grants<'a> {
    type Item = Result<Grant, Refusal>;

    ghost next_gives = { YieldsFirstBy item_says items_left };

    ghost remaining = { item_count items_left };

    #[inline(always)]
    fn next(&mut self) -> Option<Result<Grant, Refusal>> {
        if self.bytes.len() <= self.at {
            return None;
        }
        match grant_at(self.bytes, self.at) {
            Ok(read) => {
                self.at = read.next;
                Some(Ok(read.grant))
            }
            Err(why) => {
                self.at = self.bytes.len();
                Some(Err(why))
            }
        }
    }
}
