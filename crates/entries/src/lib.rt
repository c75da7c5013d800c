// An entry of a request, read (RULES.md, 5.2).
#![tactic(auto)]

ghost use Rattle.std.specs.Prelude.{◌≡◌};
ghost use Rattle.rules.specs.Says.{says};
ghost use Rattle.request.specs.Reading.{entry_at};
ghost use Rattle.entries.specs.Positive.{positive_value};

use reader::Reader;
use request::EntryRead;
use rules::Refusal;

// A number that may not be 0.
pub fn positive(drawn: Result<u32, Refusal>) -> Result<u32, Refusal>
    ensures { says result ≡ positive_value (says drawn) }
{
    let value = drawn?;
    if value == 0 {
        return Err(Refusal::Zero);
    }
    Ok(value)
}

// The entry at a position: its three numbers are drawn, and then judged from left to right. The draws stand here, and are not shared with
// a request's head: one function for both would stay a call, and reading a request would take nearly twice as long.
pub fn entry_at(bytes: &[u8], at: usize) -> Result<EntryRead, Refusal>
    ensures { says result ≡ entry_at bytes.now at }
{
    let mut reader = Reader::new(bytes, at);
    let first = reader.draw();
    let second = reader.draw();
    let third = reader.draw();
    let id = positive(first)?;
    let quota = positive(second)?;
    let children = third?;
    Ok(EntryRead {
        id,
        quota,
        children,
        next: reader.at,
    })
}
