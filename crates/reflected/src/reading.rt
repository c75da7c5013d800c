// Reading a tree (RULES.md, 20.1): its nodes, one after another.
ghost use Rattle.std.specs.Prelude.{◌≡◌, ◌≤◌};
ghost use Rattle.rules.specs.Answers.{answer, then};
ghost use Rattle.rules.specs.Says.{says};
ghost use Rattle.reflected_tree.specs.Reflected.{Reflected, node_count};
ghost use Rattle.reflected_tree.specs.Reading.{most_nodes, node_count_bad, lower_bad, node_at, node_trees_at, tree_of};
ghost use Rattle.reflected.specs.Inside.Reading.{own_groups, walk_end, Walked, TreeIn};

use crate::nodes::{MOST_NODES, Node};
use number::number_at;
use request::EntryRead;
use rules::{GREATEST_DEPTH, Refusal};

// Where a walk over child counts came to: the next position, the next place, and how many groups the trees end as.
#[derive(Clone, Copy)]
struct End {
    next: usize,
    used: usize,
    groups: u32,
}

// A leaf has lower id 0, an inner node another.
fn lower_bad(lower: u32, children: u32) -> bool
    ensures { result ≡ lower_bad lower children }
{
    if children == 0 {
        lower != 0
    } else {
        lower == 0
    }
}

// The node at a position. As in the definitions, the lower id stands in the place of an entry's quota.
#[tactic(auto, unfolding(reflected_tree::specs::Reading::node_at, request::specs::Reading::positive_at))]
fn node_at(bytes: &[u8], at: usize) -> Result<EntryRead, Refusal>
    ensures { says result ≡ node_at bytes.now at }
{
    let upper = number_at(bytes, at)?;
    if upper.value == 0 {
        return Err(Refusal::Zero);
    }
    let lower = number_at(bytes, upper.next)?;
    let children = number_at(bytes, lower.next)?;
    if lower_bad(lower.value, children.value) {
        return Err(Refusal::Nodes);
    }
    Ok(EntryRead {
        id: upper.value,
        quota: lower.value,
        children: children.value,
        next: children.next,
    })
}

// How many groups a node is itself: a leaf one, an inner node two.
fn own_groups(children: u32) -> u32
    ensures { result ≡ own_groups children }
{
    if children == 0 { 1 } else { 2 }
}

// The trees from a position on: a walk over child counts, with the remaining depth `room` falling. Each node takes the next of `count` places.
fn read_nodes(
    bytes: &[u8],
    at: usize,
    trees: u32,
    room: usize,
    used: usize,
    count: usize,
    nodes: &mut [Node; MOST_NODES],
) -> Result<End, Refusal>
    requires { (used ≤ count) × (count ≤ most_nodes) }
    ensures result_value { says result ≡ walk_end (node_trees_at count room trees bytes.now at used) }
    ensures walked { Walked trees used count nodes.old nodes.new (node_trees_at count room trees bytes.now at used) }
{
    let mut place = at;
    let mut next = used;
    let mut groups: u32 = 0;
    for _done in 0..trees {
        if count <= next {
            return Err(Refusal::Nodes);
        }
        if room == 0 {
            return Err(Refusal::Depth);
        }
        let node = node_at(bytes, place)?;
        let below = read_nodes(
            bytes,
            node.next,
            node.children,
            room - 1,
            next + 1,
            count,
            &mut *nodes,
        )?;
        let whole = own_groups(node.children) + below.groups;
        nodes[next] = Node {
            upper: node.id,
            lower: node.quota,
            children: node.children,
            groups: whole,
            end: below.used,
        };
        place = below.next;
        next = below.used;
        groups += whole;
    }
    Ok(End {
        next: place,
        used: next,
        groups,
    })
}

// A tree has 1 to 64 nodes.
fn node_count_bad(count: usize) -> bool
    ensures { result ≡ node_count_bad count }
{
    count == 0 || MOST_NODES < count
}

// A tree's bytes: how many nodes it has, which then stand in the first places.
pub(crate) fn read_tree(bytes: &[u8], nodes: &mut [Node; MOST_NODES]) -> Result<usize, Refusal>
    ensures result_value { says result ≡ then (tree_of bytes.now) λ t. answer (node_count t) }
    ensures tree_in { (t : Reflected) → tree_of bytes.now ≡ answer t → TreeIn nodes.new t }
{
    let first = number_at(bytes, 0)?;
    let count = first.value as usize;
    if node_count_bad(count) {
        return Err(Refusal::Nodes);
    }
    let end = read_nodes(bytes, first.next, 1, GREATEST_DEPTH, 0, count, &mut *nodes)?;
    if end.used < count {
        return Err(Refusal::Nodes);
    }
    if end.next < bytes.len() {
        return Err(Refusal::BytesRemain);
    }
    Ok(count)
}
