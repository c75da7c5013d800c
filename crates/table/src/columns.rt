// What columns may be: 10.
ghost use Rattle.std.specs.Prelude.{◌≡◌};
ghost use Rattle.table.specs.Columns.{columns};
ghost use Rattle.table.specs.Check.{lengths_bad, count_bad};

use rules::MOST_ROWS;

// The columns are four slices, as a host lends them and document 01 names them.
// 10: lengths differ or not 1 to 256.
#[tactic(auto, unfolding(crate::specs::Check::lengths_bad))]
pub fn lengths_bad(id: &[u32], l: &[u32], r: &[u32], q: &[u32]) -> bool
    ensures { result ≡ lengths_bad (columns id.now l.now r.now q.now) }
{
    let n = id.len();
    !((l.len() == n) & ((r.len() == n) & (q.len() == n))) | ((n == 0) | (MOST_ROWS < n))
}

// 10: count 0 or above length.
#[tactic(auto, unfolding(crate::specs::Check::count_bad))]
pub fn count_bad(length: usize, count: usize) -> bool
    ensures { result ≡ count_bad length count }
{
    (count == 0) | (length < count)
}
