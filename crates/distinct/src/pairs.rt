// Ids two by two.
ghost use Rattle.std.specs.Prelude.{◌≡◌};
ghost use Rattle.distinct.specs.Distinct.{all_differ};

use crate::chains::ids_chained;
use rules::ROW_CAPACITY;

// Fewer ids than these are sooner compared two by two.
const MANY_IDS: usize = 8;

// No two ids are equal. Where they are few, or more than the chains hold, the pairs decide.
pub fn ids_differ(ids: &[u32]) -> bool
    ensures { result ≡ all_differ ids.now }
{
    if MANY_IDS <= ids.len() {
        if ids.len() <= ROW_CAPACITY {
            return ids_chained(ids);
        }
    }
    for (i, id) in ids.iter().enumerate() {
        if ids[..i].contains(id) {
            return false;
        }
    }
    true
}
