// A quick test of ranges: sorted by their starts, each ends before the next begins. How they are sorted says nothing; the order is tested.
ghost use Rattle.std.specs.Prelude.{◌≡◌, ◌≤◌, true, length};
ghost use Rattle.rules.specs.Capacities.{row_capacity};
ghost use Rattle.separate.specs.Inside.Certificate.{InOrder, AllApart};

use crate::pairs::MANY_ROWS;
use crate::sorting::{FEW_ROWS, sort_few, sort_many};
use rules::ROW_CAPACITY;

// Each range begins past the one before it, and has a number.
fn ranges_in_order(start: &[u32], size: &[u32], order: &[u8; ROW_CAPACITY]) -> bool
    requires { (length start.now ≤ length size.now) × (length start.now ≤ row_capacity) }
    ensures { result ≡ true → InOrder start.now size.now order.now (length start.now) }
{
    let mut past = 0;
    for place in &order[..start.len()] {
        let row = usize::from(*place);
        if start.len() <= row {
            return false;
        }
        let first = u64::from(start[row]);
        if first < past {
            return false;
        }
        past = first + u64::from(size[row]);
        if past <= first {
            return false;
        }
    }
    true
}

// True only where every two ranges are disjoint. False says nothing: it is the answer for few rows, and for more than the work arrays
// hold, too.
pub(crate) fn ranges_certified(start: &[u32], size: &[u32]) -> bool
    ensures { result ≡ true → AllApart start.now size.now (length start.now) }
{
    if size.len() < start.len() {
        return false;
    }
    if start.len() < MANY_ROWS {
        return false;
    }
    if start.len() <= FEW_ROWS {
        let order = sort_few(start);
        return ranges_in_order(start, size, &order);
    }
    if ROW_CAPACITY < start.len() {
        return false;
    }
    let order = sort_many(start);
    ranges_in_order(start, size, &order)
}
