// A request's bytes, to its entries and their numbers in a plane of the request's own: l and r begin at 0.
ghost use Rattle.std.specs.Prelude.{◌≡◌, ◌≤◌, length};
ghost use Rattle.rules.specs.Capacities.{entry_capacity};
ghost use Rattle.rules.specs.Limits.{most_entries};
ghost use Rattle.rules.specs.Says.{says};
ghost use Rattle.request.specs.Numbering.{lefts, rights};
ghost use Rattle.request.specs.Reading.{request_of};
ghost use Rattle.reading.specs.Summary.{summary};
ghost use Rattle.reading.specs.Work.{Places};
ghost use Rattle.numbering.specs.Numbered.{Begins, EntriesIn, left_numbers, right_numbers};
ghost use Rattle.numbering.specs.Inside.Boxed.{Held, forest_in, numbers_of};

use crate::Numbered;
use crate::trees::number_trees;
use boxes::Box;
use reading::{Summary, Work, read_request};
use rules::{GREATEST, Refusal};

// Numbers the entries that were read in the box of their quota that begins at (0, 0), where that is at most the greatest number.
fn number_entries(work: &Work, read: Summary, l: &mut [u32], r: &mut [u32])
    requires entries_in_bounds { (read.entries ≤ most_entries) × (read.entries ≤ length l.old) × (read.entries ≤ length r.old) }
    requires held { Held work.now read.entries read.quota }
    ensures begins { Begins l.old l.new (numbers_of lefts read.upright (forest_in work.now 0 read.entries)) }
    ensures begins_2 { Begins r.old r.new (numbers_of rights read.upright (forest_in work.now 0 read.entries)) }
{
    let entries = read.entries;
    if read.quota <= GREATEST as u64 {
        let plane = Box::new(0, 0, read.quota as u32);
        number_trees(
            work,
            0,
            entries,
            read.upright,
            plane,
            &mut l[..entries],
            &mut r[..entries],
        );
    }
}

// A request's bytes, to its entries in their order: ids, quotas, and, where all the quotas together are at most the greatest number,
// the quotas before each entry in L and in R. Refused, every id and quota is 0, and `l` and `r` stay as they were.
pub fn number_request(bytes: &[u8], numbered: &mut Numbered) -> Result<Summary, Refusal>
    ensures result_value { says result ≡ summary (request_of bytes.now) }
    ensures entries_in { EntriesIn (request_of bytes.now) numbered.old.work.ids numbered.new.work.ids numbered.old.work.quotas numbered.new.work.quotas }
    ensures begins { Begins numbered.old.l numbered.new.l (left_numbers (request_of bytes.now)) × Begins numbered.old.r numbered.new.r (right_numbers (request_of bytes.now)) }
    ensures places { Places entry_capacity numbered.new.work }
{
    let read = read_request(bytes, &mut numbered.work)?;
    number_entries(&numbered.work, read, &mut numbered.l, &mut numbered.r);
    Ok(read)
}
