// A log's reading (RULES.md, 14.1): its fresh pair, where each request stands, and the room that its text asks for.
#![tactic(auto)]

mod room;

ghost use Rattle.std.specs.Prelude.{◌≡◌};
ghost use Rattle.rules.specs.Says.{says};
ghost use Rattle.request_log.specs.Log.{pair_of, part_at};

use number::number_at;
pub use room::no_room;
use rules::Refusal;

// The fresh pair that begins a log, and the position after it.
#[derive(Clone, Copy)]
pub struct Pair {
    pub id: u32,
    pub quota: u32,
    pub next: usize,
}

// A request in a log: where its bytes start, and where they end. Positions, and no slice: the definition's own record.
#[derive(Clone, Copy)]
pub struct Part {
    pub start: usize,
    pub end: usize,
}

// The fresh pair: 1 or 2 for a bad number.
#[tactic(auto, unfolding(crate::specs::Log::pair_of))]
pub fn pair_of(log: &[u8]) -> Result<Pair, Refusal>
    ensures { says result ≡ pair_of log.now }
{
    let id = number_at(log, 0)?;
    let quota = number_at(log, id.next)?;
    Ok(Pair {
        id: id.value,
        quota: quota.value,
        next: quota.next,
    })
}

// The request whose length stands at a position: 1 or 2 for a bad length, 1 for an overlong one.
#[tactic(auto, using(crate::proofs::Laws::length_bad, crate::proofs::Laws::length_over, crate::proofs::Laws::length_good))]
pub fn part_at(log: &[u8], at: usize) -> Result<Part, Refusal>
    ensures { says result ≡ part_at log.now at }
{
    let length = number_at(log, at)?;
    if log.len() - length.next < length.value as usize {
        return Err(Refusal::NumberCut);
    }
    Ok(Part {
        start: length.next,
        end: length.next + length.value as usize,
    })
}
