// The line that `may` prints (RULES.md, 14.2), written into a lent buffer.
#![tactic(auto)]

ghost use Rattle.std.specs.Prelude.{◌≡◌};
ghost use Rattle.rules.specs.Buffers.{written};
ghost use Rattle.rules.specs.Says.{says};
ghost use Rattle.writer.specs.Writing.{Wrote};
ghost use Rattle.dating.specs.Says.{decided_says};
ghost use Rattle.decision_line.specs.DecisionText.{decision_text};

use dating::Decided;
use lines::write_word;
use rules::Refusal;
use writer::Writer;

// Writes a decision's line, at most 17 bytes, and moves on past it: 30, and none of it, where the buffer is too short.
#[tactic(auto, unfolding(crate::specs::DecisionText::decision_text))]
pub fn write_decision(
    writer: &mut Writer<'_>,
    decided: Result<Decided, Refusal>,
) -> Result<usize, Refusal>
    ensures result_value { says result ≡ written writer.old.buffer.now writer.old.at (decision_text (decided_says decided)) }
    ensures wrote { Wrote writer.old writer.new (decision_text (decided_says decided)) }
{
    match decided {
        Ok(Decided::OnOpen) => writer.bytes(b"on open\n"),
        Ok(Decided::OnUntil(day)) => write_word(writer, b"on ", day),
        Ok(Decided::Ended(day)) => write_word(writer, b"ended ", day),
        Ok(Decided::Ahead(day)) => write_word(writer, b"ahead ", day),
        Ok(Decided::Never) => writer.bytes(b"never\n"),
        Err(why) => write_word(writer, b"no ", why.number()),
    }
}
