// Whether an id of a tree repeats (RULES.md, 20.1).
ghost use Rattle.std.specs.Prelude.{◌≡◌, ◌≤◌};
ghost use Rattle.reflected_tree.specs.Reflected.{Reflected, node_count};
ghost use Rattle.reflected_tree.specs.Reading.{most_nodes, id_repeats};
ghost use Rattle.reflected.specs.Inside.Nodes.{Holds};

use crate::nodes::{MOST_NODES, Node};
use distinct::ids_differ;

// A node has an upper id, and an inner node a lower one.
const MOST_IDS: usize = 2 * MOST_NODES;

// An id repeats, upper and lower ids together, of the tree that the first `count` places hold.
pub(crate) fn id_repeats(nodes: &[Node; MOST_NODES], count: usize) -> bool
    requires { count ≤ most_nodes }
    ensures { (t : Reflected) → Holds nodes.now t → node_count t ≡ count → result ≡ id_repeats t }
{
    let mut ids = [0u32; MOST_IDS];
    let mut next = 0;
    for node in &nodes[..count] {
        ids[next] = node.upper;
        next += 1;
        if 0 < node.children {
            ids[next] = node.lower;
            next += 1;
        }
    }
    !ids_differ(&ids[..next])
}
