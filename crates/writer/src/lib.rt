// A writer that writes bytes one after another into a lent buffer (RULES.md, 2): all of some bytes, or none.
#![tactic(auto)]

ghost use Rattle.std.specs.Prelude.{◌≡◌, ◌+◌, ◌∷◌, [], ltb, length};
ghost use Rattle.rules.specs.Says.{says};
ghost use Rattle.rules.specs.Buffers.{written};
ghost use Rattle.writer.specs.Writing.{Wrote};

use rules::Refusal;

// The buffer that a writer refers to, and its place there.
#[derive(Drop)]
pub struct Writer<'a> {
    pub buffer: &'a mut [u8],
    pub at: usize,
}

impl<'a> Writer<'a> {
    // A writer at a place of a buffer.
    pub fn new(buffer: &'a mut [u8], at: usize) -> Writer<'a>
        ensures { (result.buffer ≡ buffer.entry) × (result.at ≡ at) }
    {
        Writer { buffer, at }
    }

    // The buffer is too short for so many bytes more.
    #[tactic(auto, using(crate::proofs::Writing::short_same))]
    pub fn too_short(&self, bytes: usize) -> bool
        ensures { result ≡ ltb (length self.now.buffer.now) (self.now.at + bytes) }
    {
        if self.buffer.len() < self.at {
            return true;
        }
        self.buffer.len() - self.at < bytes
    }

    // Writes given bytes, and moves on past them: 30, and none of them, where the buffer is too short.
    #[tactic(auto, using(crate::proofs::Writing::no_room_answer, crate::proofs::Writing::room_answer, crate::proofs::Writing::none_written, crate::proofs::Writing::all_written, crate::proofs::Writing::copied))]
    pub fn bytes(&mut self, bytes: &[u8]) -> Result<usize, Refusal>
        ensures value { says result ≡ written self.old.buffer.now self.old.at bytes.now }
        ensures wrote { Wrote self.old self.new bytes.now }
    {
        if self.too_short(bytes.len()) {
            return Err(Refusal::BufferShort);
        }
        let end = self.at + bytes.len();
        self.buffer[self.at..end].copy_from_slice(bytes);
        self.at = end;
        Ok(bytes.len())
    }

    // Writes one byte, and moves on past it: 30 where the buffer has no place for it.
    pub fn byte(&mut self, byte: u8) -> Result<usize, Refusal>
        ensures value { says result ≡ written self.old.buffer.now self.old.at (byte ∷ []) }
        ensures wrote { Wrote self.old self.new (byte ∷ []) }
    {
        if self.buffer.len() <= self.at {
            return Err(Refusal::BufferShort);
        }
        self.buffer[self.at] = byte;
        self.at += 1;
        Ok(1)
    }
}
