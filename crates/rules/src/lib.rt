// What every layer shares: the limits (RULES.md, 1), and the refusals with their numbers (RULES.md, 12).
#![tactic(auto)]

ghost use Rattle.std.specs.Prelude.{◌≡◌};
ghost use Rattle.rules.specs.Refusals.{refusal_number};

// The greatest value of a number.
pub const GREATEST: u32 = 4294967295;
// The most rows that columns have.
pub const MOST_ROWS: usize = 256;
// The most entries that a request has.
pub const MOST_ENTRIES: usize = 256;
// The greatest depth of an entry.
pub const GREATEST_DEPTH: usize = 16;

// How many rows and how many entries a work array holds: those that the limits allow.
pub const ROW_CAPACITY: usize = MOST_ROWS;

pub const ENTRY_CAPACITY: usize = MOST_ENTRIES;

// Why a call is refused: a case for each row of the table of RULES.md, 12.
#[derive(Clone, Copy)]
pub enum Refusal {
    // Bytes end before the number does.
    NumberCut,
    // Fifth byte above 15, or a last byte 00 that isn't the only one.
    NumberForm,
    // Direction above 1.
    Direction,
    // Exploded id, tree count, entry id or quota is 0.
    Zero,
    // An entry's depth is 17.
    Depth,
    // Bytes remain at the end.
    BytesRemain,
    // An entry is the 257th.
    Entries,
    // Lengths differ or not 1 to 256; count 0 or above length.
    Columns,
    // A value 0, or a range past the greatest number.
    RowValue,
    // Two equal ids.
    RowIds,
    // Ranges of two rows meet in l or in r.
    RowRanges,
    // Feature, l, r or first is 0, or last is not 0 and below first.
    Grant,
    // Feature, pass l or r, or day is 0.
    Question,
    // Id named isn't in the table.
    IdUnknown,
    // Exploded id isn't exactly one entry.
    ExplodedEntry,
    // Another entry's id is in the table.
    IdTaken,
    // Quotas don't add up.
    QuotaSum,
    // Count + entries - 1 exceeds the column length.
    RowsFull,
    // Another entry's id comes twice.
    IdTwice,
    // Buffer shorter than the bytes needed.
    BufferShort,
    // A grant's first or last day is above 36525.
    Undated,
    // A reflected tree's nodes are outside 1 to 64 or not those of one tree, or a lower id is 0 where it may not be, or not 0 where it has to be.
    Nodes,
    // An id of a reflected tree repeats.
    IdRepeats,
}

impl Refusal {
    // The refusal's number (RULES.md, 12). A match, since it is that table, row by row; numbers of the cases would be no plainer.
    pub fn number(self) -> u32
        ensures { result ≡ refusal_number self }
    {
        match self {
            Refusal::NumberCut => 1,
            Refusal::NumberForm => 2,
            Refusal::Direction => 3,
            Refusal::Zero => 4,
            Refusal::Depth => 5,
            Refusal::BytesRemain => 6,
            Refusal::Entries => 7,
            Refusal::Columns => 10,
            Refusal::RowValue => 11,
            Refusal::RowIds => 12,
            Refusal::RowRanges => 13,
            Refusal::Grant => 14,
            Refusal::Question => 15,
            Refusal::IdUnknown => 20,
            Refusal::ExplodedEntry => 21,
            Refusal::IdTaken => 22,
            Refusal::QuotaSum => 23,
            Refusal::RowsFull => 24,
            Refusal::IdTwice => 26,
            Refusal::BufferShort => 30,
            Refusal::Undated => 31,
            Refusal::Nodes => 32,
            Refusal::IdRepeats => 33,
        }
    }
}
