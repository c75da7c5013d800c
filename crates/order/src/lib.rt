// The order of two groups of a table (RULES.md, 8).
#![tactic(auto)]

ghost use Rattle.std.specs.Prelude.{◌≡◌};
ghost use Rattle.rules.specs.Says.{says};
ghost use Rattle.table.specs.Columns.{columns};
ghost use Rattle.table.specs.InUse.{rows_of};
ghost use Rattle.order.specs.Order.{compare, subgroup};
ghost use Rattle.order.specs.Order.{order as table_order, row_of as row_with};

use coordinates::{LValue, RValue};
use rules::Refusal;
use table::{Row, RowsInUse, check_columns, place_of};

// How two groups stand to each other.
#[derive(Clone, Copy)]
pub enum Ordered {
    // One group named twice.
    Same,
    // The first is a subgroup of the second.
    First,
    // The second is a subgroup of the first.
    Second,
    Incomparable,
}

// g is a subgroup of h. Crate matching has such a test of a pass and a grant: one for both would take a type of l and r that each is turned into
// first, for one line.
#[tactic(auto, unfolding(crate::specs::Order::subgroup))]
fn is_subgroup(g: Row, h: Row) -> bool
    ensures { result ≡ subgroup g.l g.r h.l h.r }
{
    LValue::from(g.l).at_most(LValue::from(h.l)) & RValue::from(g.r).at_most(RValue::from(h.r))
}

// The order of two groups.
#[tactic(auto, unfolding(crate::specs::Order::order_by))]
fn compare(g: Row, h: Row) -> Ordered
    ensures { result ≡ compare g h }
{
    if g.id == h.id {
        return Ordered::Same;
    }
    if is_subgroup(g, h) {
        return Ordered::First;
    }
    if is_subgroup(h, g) {
        return Ordered::Second;
    }
    Ordered::Incomparable
}

// A group's row. 20: the id isn't in the table.
fn row_of(rows: RowsInUse<'_>, id: u32) -> Result<Row, Refusal>
    ensures { says result ≡ row_with (rows_of rows.entry) id }
{
    let place = place_of(rows.id(), rows.len(), id);
    rows.get(place).ok_or(Refusal::IdUnknown)
}

// The columns are four slices, as a host lends them and document 01 names them.
// The order of two groups: 10 to 13, then 20 for either id.
#[tactic(auto, unfolding(crate::specs::Order::order, crate::specs::Order::order_in))]
pub fn order(
    id: &[u32],
    l: &[u32],
    r: &[u32],
    q: &[u32],
    count: usize,
    a: u32,
    b: u32,
) -> Result<Ordered, Refusal>
    ensures { says result ≡ table_order (columns id.now l.now r.now q.now) count a b }
{
    let rows = check_columns(id, l, r, q, count)?;
    let first = row_of(rows, a)?;
    let second = row_of(rows, b)?;
    Ok(compare(first, second))
}
