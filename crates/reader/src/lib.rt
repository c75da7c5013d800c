// The reader that draws numbers one after another (RULES.md, 2).
#![tactic(auto)]

ghost use Rattle.std.specs.Prelude.{◌≡◌};
ghost use Rattle.rules.specs.Says.{says};
ghost use Rattle.number.specs.Number.{number_at};
ghost use Rattle.reader.specs.Drawing.{drawn, moved};

use number::number_at;
use rules::Refusal;

// The bytes that a reader refers to, and its place in them.
#[derive(Clone, Copy)]
pub struct Reader<'a> {
    pub bytes: &'a [u8],
    pub at: usize,
}

impl<'a> Reader<'a> {
    // A reader at a place of some bytes.
    pub fn new(bytes: &'a [u8], at: usize) -> Reader<'a>
        ensures { (result.bytes ≡ bytes.entry) × (result.at ≡ at) }
    {
        Reader { bytes, at }
    }

    // The next number, and the reader moves on to the place after it; 1 or 2 where none stands there, and the reader stands at the first place.
    pub fn draw(&mut self) -> Result<u32, Refusal>
        ensures value { says result ≡ drawn (number_at self.old.bytes.now self.old.at) }
        ensures place { self.new.at ≡ moved (number_at self.old.bytes.now self.old.at) }
        ensures same { self.new.bytes ≡ self.old.bytes }
    {
        match number_at(self.bytes, self.at) {
            Ok(number) => {
                self.at = number.next;
                Ok(number.value)
            }
            Err(why) => {
                self.at = 0;
                Err(why)
            }
        }
    }
}
