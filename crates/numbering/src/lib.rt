// Numbering: a request's entries are read, and each is given its offsets in L and in R (RULES.md, 6).
#![tactic(auto)]

mod requests;
mod trees;

ghost use Rattle.std.specs.Prelude.{◌≡◌};
ghost use Rattle.numbering.specs.Numbered.{no_numbers};

use reading::Work;
pub use requests::number_request;
use rules::ENTRY_CAPACITY;

// A request's entries in its order: as they were read, and the quotas before each in L and in R.
#[derive(Drop)]
pub struct Numbered {
    pub work: Work,
    pub l: [u32; ENTRY_CAPACITY],
    pub r: [u32; ENTRY_CAPACITY],
}

impl Numbered {
    // Columns with every number 0.
    pub fn new() -> Numbered
        ensures { result ≡ no_numbers }
    {
        Numbered {
            work: Work::new(),
            l: [0; ENTRY_CAPACITY],
            r: [0; ENTRY_CAPACITY],
        }
    }
}
