// Reading a request (RULES.md, 5.2): its bytes, drawn into work columns that hold its entries in their order.
#![tactic(auto)]

mod columns;

ghost use Rattle.std.specs.Prelude.{◌≡◌, ◌≤◌};
ghost use Rattle.rules.specs.Capacities.{entry_capacity};
ghost use Rattle.rules.specs.Limits.{most_entries};
ghost use Rattle.rules.specs.Says.{says};
ghost use Rattle.request.specs.Reading.{trees_at, request_of};
ghost use Rattle.reading.specs.Summary.{summary};
ghost use Rattle.reading.specs.Work.{Places, work_after};
ghost use Rattle.reading.specs.Inside.Work.{Walked, walk_end, RequestIn};

pub use columns::Work;
use entries::{entry_at, positive};
use reader::Reader;
use rules::{GREATEST_DEPTH, MOST_ENTRIES, Refusal};

// A request as it is read, without its trees: how many entries they have, and all their quota. The entries stand in the work columns.
#[derive(Clone, Copy)]
pub struct Summary {
    pub exploded: u32,
    // A direction is a bool here, in boxes and in numbering: that is all that is asked of it, and what the definitions ask.
    pub upright: bool,
    pub entries: usize,
    pub quota: u64,
}

// Where a walk over child counts came to: the next position, the next entry, and the subtrees' quota.
#[derive(Clone, Copy)]
struct WalkEnd {
    next: usize,
    used: usize,
    quota: u64,
}

// The trees from a position on: a walk over child counts, with the remaining depth `room` falling. Each entry takes the next place of
// the work columns; one without children needs no walk below.
fn read_trees(
    bytes: &[u8],
    at: usize,
    trees: u32,
    room: usize,
    used: usize,
    work: &mut Work,
) -> Result<WalkEnd, Refusal>
    requires { used ≤ most_entries }
    ensures result_value { says result ≡ walk_end (trees_at room trees bytes.now at used) }
    ensures walked { Walked (trees_at room trees bytes.now at used) used work.old work.new }
{
    let mut place = at;
    let mut next = used;
    let mut sum: u64 = 0;
    for _done in 0..trees {
        if MOST_ENTRIES <= next {
            return Err(Refusal::Entries);
        }
        if room == 0 {
            return Err(Refusal::Depth);
        }
        let entry = entry_at(bytes, place)?;
        let own = entry.quota as u64;
        work.ids[next] = entry.id;
        work.quotas[next] = entry.quota;
        if entry.children == 0 {
            work.ends[next] = next + 1;
            work.sums[next] = own;
            place = entry.next;
            next = next + 1;
            sum = sum + own;
        } else {
            let below = read_trees(
                bytes,
                entry.next,
                entry.children,
                room - 1,
                next + 1,
                &mut *work,
            )?;
            let whole = own + below.quota;
            work.ends[next] = below.used;
            work.sums[next] = whole;
            place = below.next;
            next = below.used;
            sum = sum + whole;
        }
    }
    Ok(WalkEnd {
        next: place,
        used: next,
        quota: sum,
    })
}

// A request's bytes: exploded id, direction, number of trees, and the trees. The three draws stand here, and are not shared with an entry's.
fn read_parts(bytes: &[u8], work: &mut Work) -> Result<Summary, Refusal>
    ensures result_value { says result ≡ summary (request_of bytes.now) }
    ensures request_in { RequestIn (request_of bytes.now) work.old work.new }
{
    let mut reader = Reader::new(bytes, 0);
    let first = reader.draw();
    let second = reader.draw();
    let third = reader.draw();
    let exploded = positive(first)?;
    let direction = second?;
    if 1 < direction {
        return Err(Refusal::Direction);
    }
    let trees = positive(third)?;
    let end = read_trees(bytes, reader.at, trees, GREATEST_DEPTH, 0, &mut *work)?;
    if end.next < bytes.len() {
        return Err(Refusal::BytesRemain);
    }
    Ok(Summary {
        exploded,
        upright: direction == 0,
        entries: end.used,
        quota: end.quota,
    })
}

// A request's bytes, to its entries in the work columns. Refused, every number there is 0.
pub fn read_request(bytes: &[u8], work: &mut Work) -> Result<Summary, Refusal>
    ensures result_value { says result ≡ summary (request_of bytes.now) }
    ensures sums_value { work.new ≡ work_after (request_of bytes.now) work.old }
    ensures places { Places entry_capacity work.new }
{
    let read = read_parts(bytes, &mut *work);
    if read.is_err() {
        work.clear();
    }
    read
}
