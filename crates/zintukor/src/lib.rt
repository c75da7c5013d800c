// The calls for a host in C or Rust; crate zintukor_c exports them (include/zintukor.h). Each answers one number: kind * 4294967296 + value (RULES.md, 17).
// The columns are four slices each: the C interface. None has a precondition, keeps state or allocates; a refused call leaves each column and buffer as it found it.
#![tactic(auto)]

ghost use Rattle.std.specs.Prelude.{◌≡◌, ◌++◌, take, drop};
ghost use Rattle.table.specs.Columns.{counted, afterwards};
ghost use Rattle.table.specs.Check.{checked};
ghost use Rattle.fresh.specs.Fresh.{fresh_rows};
ghost use Rattle.order.specs.Order.{order as table_order};
ghost use Rattle.refine.specs.Refine.{refined};
ghost use Rattle.rules.specs.Limits.{greatest};
ghost use Rattle.rules.specs.Buffers.{written, after};
ghost use Rattle.rules.specs.Says.{says};
ghost use Rattle.zintukor.specs.Inside.Small.{Small};
ghost use Rattle.small.specs.Small.{list_bytes};
ghost use Rattle.reflected_tree.specs.Reading.{reflected_of, reflected_answer, reflected_buffer};
ghost use Rattle.decide.specs.Decision.{decided};
ghost use Rattle.page.specs.Page.{page_of, page_answer, page_buffer};
ghost use Rattle.stored.specs.Stored.{store_answer, store_buffer, read_rows};
ghost use Rattle.codes.specs.Codes.{count_code, order_code, decision_code};
ghost use Rattle.table.specs.Columns.{columns};

use codes::{count_code, decision_code, order_code, refusal_code};
use decide::decide;
use fresh::fresh;
use load::read;
use order::order;
use page::page;
use refine::refine;
use reflected::reflected;
use rules::{GREATEST, Refusal};
use small_requests::small_requests;
use store::store;

// The number of a count, a byte count or a refusal: a count is small, so that it does not run into the kind.
#[tactic(auto, using(crate::proofs::Bounds::small_count))]
fn answer_code(answer: Result<usize, Refusal>) -> u64
    requires { Small (says answer) }
    ensures { result ≡ count_code (says answer) }
{
    match answer {
        Ok(n) => count_code(n as u32),
        Err(why) => refusal_code(why),
    }
}

// A fresh table: row 0 is the group at (1, 1) with the quota.
#[tactic(auto, using(crate::proofs::Bounds::fresh_small))]
pub fn zintukor_fresh(
    id: &mut [u32],
    l: &mut [u32],
    r: &mut [u32],
    q: &mut [u32],
    group: u32,
    quota: u32,
) -> u64
    ensures value { result ≡ count_code (counted (fresh_rows (columns id.old l.old r.old q.old) group quota)) }
    ensures q_value { columns id.new l.new r.new q.new ≡ afterwards (fresh_rows (columns id.old l.old r.old q.old) group quota) (columns id.old l.old r.old q.old) }
{
    answer_code(fresh(id, l, r, q, group, quota))
}

// Explodes a group as the request's bytes say.
#[tactic(auto, using(crate::proofs::Bounds::refined_small))]
pub fn zintukor_refine(
    id: &mut [u32],
    l: &mut [u32],
    r: &mut [u32],
    q: &mut [u32],
    count: usize,
    request: &[u8],
) -> u64
    ensures value { result ≡ count_code (counted (refined (columns id.old l.old r.old q.old) count request.now)) }
    ensures q_value { columns id.new l.new r.new q.new ≡ afterwards (refined (columns id.old l.old r.old q.old) count request.now) (columns id.old l.old r.old q.old) }
{
    answer_code(refine(id, l, r, q, count, request))
}

// The order of two groups.
pub fn zintukor_order(
    id: &[u32],
    l: &[u32],
    r: &[u32],
    q: &[u32],
    count: usize,
    first: u32,
    second: u32,
) -> u64
    ensures { result ≡ order_code (table_order (columns id.now l.now r.now q.now) count first second) }
{
    order_code(order(id, l, r, q, count, first, second))
}

// The decision on a feature for a pass (l, r) and a day.
pub fn zintukor_decide(feature: u32, l: u32, r: u32, day: u32, grants: &[u8]) -> u64
    ensures { result ≡ decision_code (decided feature l r day grants.now) }
{
    decision_code(decide(feature, l, r, day, grants))
}

// The page of a pass (l, r) on a day, for the shift board. An answer's value has 32 bits: of a buffer that is longer, as many bytes as that
// are used.
pub fn zintukor_page(l: u32, r: u32, day: u32, grants: &[u8], buffer: &mut [u8]) -> u64
    ensures value { result ≡ count_code (page_answer l r day grants.now (take greatest buffer.old)) }
    ensures buffer_value { buffer.new ≡ page_buffer (page_of l r day grants.now) (take greatest buffer.old) ++ drop greatest buffer.old }
{
    let room = buffer.len().min(GREATEST as usize);
    answer_code(page(l, r, day, grants, &mut buffer[..room]))
}

// Stores a table as bytes.
#[tactic(auto, using(crate::proofs::Bounds::store_small))]
pub fn zintukor_store(
    id: &[u32],
    l: &[u32],
    r: &[u32],
    q: &[u32],
    count: usize,
    buffer: &mut [u8],
) -> u64
    ensures value { result ≡ count_code (store_answer (columns id.now l.now r.now q.now) count buffer.old) }
    ensures buffer_value { buffer.new ≡ store_buffer (checked (columns id.now l.now r.now q.now) count) buffer.old }
{
    answer_code(store(id, l, r, q, count, buffer))
}

// Reads a stored table in.
#[tactic(auto, using(crate::proofs::Bounds::read_small))]
pub fn zintukor_read(
    id: &mut [u32],
    l: &mut [u32],
    r: &mut [u32],
    q: &mut [u32],
    bytes: &[u8],
) -> u64
    ensures value { result ≡ count_code (counted (read_rows (columns id.old l.old r.old q.old) bytes.now)) }
    ensures q_value { columns id.new l.new r.new q.new ≡ afterwards (read_rows (columns id.old l.old r.old q.old) bytes.now) (columns id.old l.old r.old q.old) }
{
    answer_code(read(id, l, r, q, bytes))
}

// Writes every small request of a size, in order, each after its length.
#[tactic(auto, using(crate::proofs::Bounds::list_small))]
pub fn zintukor_small_requests(size: u32, buffer: &mut [u8]) -> u64
    ensures value { result ≡ count_code (written buffer.old 0 (list_bytes size)) }
    ensures buffer_value { buffer.new ≡ after buffer.old 0 (list_bytes size) }
{
    answer_code(small_requests(size, buffer))
}

// Reads a reflected tree of the old product, and writes the list with which a table gets its groups.
#[tactic(auto, using(crate::proofs::Bounds::reflected_small))]
pub fn zintukor_reflected(bytes: &[u8], buffer: &mut [u8]) -> u64
    ensures value { result ≡ count_code (reflected_answer bytes.now buffer.old) }
    ensures buffer_value { buffer.new ≡ reflected_buffer (reflected_of bytes.now) buffer.old }
{
    answer_code(reflected(bytes, buffer))
}
