// Answers as one number: a kind and a value (RULES.md, 17).
#![tactic(auto)]

ghost use Rattle.std.specs.Prelude.{◌≡◌};
ghost use Rattle.rules.specs.Answers.{answer};
ghost use Rattle.rules.specs.Refusals.{refusal_number};
ghost use Rattle.rules.specs.Says.{says};
ghost use Rattle.dating.specs.Says.{decided_says};
ghost use Rattle.codes.specs.Codes.{refusal_code, count_code, order_code, decision_code};
ghost use Rattle.codes.specs.Codes.{encoded as encoded_as};
ghost use Rattle.codes.specs.Inside.Kinds.{kind_number};

use dating::Decided;
use order::Ordered;
use rules::{GREATEST, Refusal};

// The kinds, each with its number.
#[derive(Clone, Copy)]
enum Kind {
    // A refusal; the value is its number.
    Refused = 0,
    // The value is the new count, or the byte count.
    Count = 1,
    // One group named twice; the value is 0.
    Same = 2,
    // The first is a subgroup of the second; 0.
    First = 3,
    // The second is a subgroup of the first; 0.
    Second = 4,
    // Neither is a subgroup of the other; 0.
    Incomparable = 5,
    // On, without an end; 0.
    OnOpen = 6,
    // On; the last day.
    OnUntil = 7,
    // Ended; the last day.
    Ended = 8,
    // Yet to begin; the first day.
    Ahead = 9,
    // No grant applies; 0.
    Never = 10,
}

impl Kind {
    fn number(self) -> u64
        ensures { result ≡ kind_number self }
    {
        self as u64
    }

    // The kind and a value in one number: the value below, the kind above.
    fn with(self, value: u32) -> u64
        ensures { result ≡ encoded_as (kind_number self) value }
    {
        self.number() * (GREATEST as u64 + 1) + value as u64
    }
}

// The number of a refusal.
pub fn refusal_code(why: Refusal) -> u64
    ensures { result ≡ refusal_code (refusal_number why) }
{
    Kind::Refused.with(why.number())
}

// The number of a count or a byte count.
pub fn count_code(n: u32) -> u64
    ensures { result ≡ count_code (answer n) }
{
    Kind::Count.with(n)
}

// The number of an order or a refusal.
pub fn order_code(ordered: Result<Ordered, Refusal>) -> u64
    ensures { result ≡ order_code (says ordered) }
{
    match ordered {
        Ok(Ordered::Same) => Kind::Same.with(0),
        Ok(Ordered::First) => Kind::First.with(0),
        Ok(Ordered::Second) => Kind::Second.with(0),
        Ok(Ordered::Incomparable) => Kind::Incomparable.with(0),
        Err(why) => refusal_code(why),
    }
}

// The number of a decision or a refusal.
pub fn decision_code(decided: Result<Decided, Refusal>) -> u64
    ensures { result ≡ decision_code (decided_says decided) }
{
    match decided {
        Ok(Decided::OnOpen) => Kind::OnOpen.with(0),
        Ok(Decided::OnUntil(day)) => Kind::OnUntil.with(day),
        Ok(Decided::Ended(day)) => Kind::Ended.with(day),
        Ok(Decided::Ahead(day)) => Kind::Ahead.with(day),
        Ok(Decided::Never) => Kind::Never.with(0),
        Err(why) => refusal_code(why),
    }
}
