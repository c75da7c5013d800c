// The work columns of a request.
ghost use Rattle.std.specs.Prelude.{◌≡◌};
ghost use Rattle.reading.specs.Work.{no_work};

use rules::ENTRY_CAPACITY;

// A request's entries in its order, each with its id, its quota, where its subtree ends and its subtree's quota. Arrays side by side on the
// stack: no heap, and refine writes a column of the table from a column.
#[derive(Drop)]
pub struct Work {
    pub ids: [u32; ENTRY_CAPACITY],
    pub quotas: [u32; ENTRY_CAPACITY],
    pub ends: [usize; ENTRY_CAPACITY],
    pub sums: [u64; ENTRY_CAPACITY],
}

impl Work {
    // Work columns with every number 0.
    pub fn new() -> Work
        ensures { result ≡ no_work }
    {
        Work {
            ids: [0; ENTRY_CAPACITY],
            quotas: [0; ENTRY_CAPACITY],
            ends: [0; ENTRY_CAPACITY],
            sums: [0; ENTRY_CAPACITY],
        }
    }

    // Every number is 0 again.
    pub fn clear(&mut self)
        ensures { self.new ≡ no_work }
    {
        self.ids = [0; ENTRY_CAPACITY];
        self.quotas = [0; ENTRY_CAPACITY];
        self.ends = [0; ENTRY_CAPACITY];
        self.sums = [0; ENTRY_CAPACITY];
    }
}
