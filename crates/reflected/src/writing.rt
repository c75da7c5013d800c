// Writing the list of a tree that was read, node by node.
ghost use Rattle.std.specs.Prelude.{◌≡◌, ◌+◌, ◌<◌, ◌≤◌, length};
ghost use Rattle.writer.specs.Writing.{HasRoom, WroteAll};
ghost use Rattle.number.specs.Number.{bytes_of};
ghost use Rattle.request.specs.Bytes.{trees_bytes, request_bytes};
ghost use Rattle.reflected_tree.specs.Reading.{most_nodes};
ghost use Rattle.reflected_tree.specs.Written.{list_bytes};
ghost use Rattle.reflected.specs.Inside.Writing.{numbers_bytes, sized, chain_of, roots_at, spread_at, own_at, sized_all, Walks, Sound, Stored};

use crate::nodes::{MOST_NODES, Node};
use number::{number_length, write_number};
use writer::Writer;

// How many bytes a few numbers have.
#[tactic(auto, using(crate::proofs::Written::numbers_few, crate::proofs::Written::numbers_step, crate::proofs::Written::numbers_none))]
fn numbers_length(numbers: &[u32]) -> usize
    requires { length numbers.now ≤ 12 }
    ensures { result ≡ length (numbers_bytes numbers.now) }
{
    let mut bytes: usize = 0;
    for number in numbers {
        bytes += number_length(*number);
    }
    bytes
}

// Writes numbers one after another, for which there is room.
fn write_numbers(writer: &mut Writer<'_>, numbers: &[u32])
    requires { HasRoom writer.old (length (numbers_bytes numbers.now)) }
    ensures { WroteAll writer.old writer.new (numbers_bytes numbers.now) }
{
    for number in numbers {
        let _ = write_number(&mut *writer, *number);
    }
}

// The numbers of a node's chain: its beginning, and three entries.
#[tactic(auto, using(crate::proofs::Written::chain_parts))]
fn chain_numbers(node: Node, first: u32) -> [u32; 12]
    requires { 2 ≤ node.groups }
    ensures { numbers_bytes result ≡ request_bytes (chain_of node first) }
{
    let children = node.groups - 2;
    [
        node.upper, 0, 1, node.upper, 1, 1, first, children, 1, node.lower, 1, 0,
    ]
}

// Writes a node's chain after its length, for which there is room.
#[tactic(auto, using(crate::proofs::Written::numbers_few, crate::proofs::Written::sized_count, crate::proofs::Written::number_written, crate::proofs::Written::sized_written))]
fn write_chain(writer: &mut Writer<'_>, node: Node, first: u32)
    requires { (2 ≤ node.groups) × HasRoom writer.old (length (sized (request_bytes (chain_of node first)))) }
    ensures { WroteAll writer.old writer.new (sized (request_bytes (chain_of node first))) }
{
    let numbers = chain_numbers(node, first);
    let _ = write_number(&mut *writer, numbers_length(&numbers) as u32);
    write_numbers(&mut *writer, &numbers);
}

// How many bytes nodes side by side have, each as a single tree, from a first place on.
#[tactic(auto, using(crate::proofs::Written::walks_next, crate::proofs::Written::roots_step, crate::proofs::Written::roots_none, crate::proofs::Written::roots_most))]
fn roots_length(nodes: &[Node; MOST_NODES], first: usize, count: u32) -> usize
    requires { Walks nodes.now first count }
    ensures { result ≡ length (trees_bytes (roots_at nodes.now first count)) }
{
    let mut bytes: usize = 0;
    let mut at = first;
    for _done in 0..count {
        let node = nodes[at];
        bytes += numbers_length(&[node.upper, node.groups, 0]);
        at = node.end;
    }
    bytes
}

// Writes them, for which there is room.
#[tactic(auto, using(crate::proofs::Written::walks_next, crate::proofs::Written::roots_step))]
fn write_roots(writer: &mut Writer<'_>, nodes: &[Node; MOST_NODES], first: usize, count: u32)
    requires { Walks nodes.now first count × HasRoom writer.old (length (trees_bytes (roots_at nodes.now first count))) }
    ensures { WroteAll writer.old writer.new (trees_bytes (roots_at nodes.now first count)) }
{
    let mut place = first;
    for _done in 0..count {
        let node = nodes[place];
        write_numbers(&mut *writer, &[node.upper, node.groups, 0]);
        place = node.end;
    }
}

// How many bytes a spread has.
#[tactic(auto, using(crate::proofs::Written::numbers_few, crate::proofs::Written::roots_most, crate::proofs::Written::spread_step))]
fn spread_length(nodes: &[Node; MOST_NODES], first: usize, count: u32) -> usize
    requires { (1 ≤ count) × Walks nodes.now first count }
    ensures { result ≡ length (request_bytes (spread_at nodes.now first count)) }
{
    numbers_length(&[nodes[first].upper, 0, count]) + roots_length(nodes, first, count)
}

// Writes a spread after its length, for which there is room.
#[tactic(auto, using(crate::proofs::Written::spread_most, crate::proofs::Written::spread_step, crate::proofs::Written::sized_count, crate::proofs::Written::number_written, crate::proofs::Written::spread_written))]
fn write_spread(writer: &mut Writer<'_>, nodes: &[Node; MOST_NODES], first: usize, count: u32)
    requires walks { (1 ≤ count) × (count ≤ most_nodes) × Walks nodes.now first count }
    requires room { HasRoom writer.old (length (sized (request_bytes (spread_at nodes.now first count)))) }
    ensures { WroteAll writer.old writer.new (sized (request_bytes (spread_at nodes.now first count))) }
{
    let _ = write_number(&mut *writer, spread_length(nodes, first, count) as u32);
    write_numbers(&mut *writer, &[nodes[first].upper, 0, count]);
    write_roots(&mut *writer, nodes, first, count);
}

// How many bytes some bytes have with their length before them.
#[tactic(auto, using(number::proofs::Laws::number_count))]
fn sized_length(bytes: usize) -> usize
    requires { bytes < 65536 }
    ensures { result ≡ bytes + length (bytes_of bytes) }
{
    bytes + number_length(bytes as u32)
}

// How many bytes a node's requests have, each after its length.
#[tactic(auto, using(number::proofs::Laws::number_count, crate::proofs::Written::numbers_few, crate::proofs::Written::sized_count, crate::proofs::Written::spread_most, crate::proofs::Written::own_none, crate::proofs::Written::own_step, crate::proofs::Written::rest_some, crate::proofs::Written::rest_none))]
fn own_length(nodes: &[Node; MOST_NODES], i: usize) -> usize
    requires { Sound nodes.now i }
    ensures { result ≡ length (sized_all (own_at nodes.now i)) }
{
    let node = nodes[i];
    if node.children == 0 {
        return 0;
    }
    let chain = sized_length(numbers_length(&chain_numbers(node, nodes[i + 1].upper)));
    if node.children == 1 {
        return chain;
    }
    chain + sized_length(spread_length(nodes, i + 1, node.children))
}

// Writes a node's requests, each after its length, for which there is room: a leaf's are none.
#[tactic(auto, using(crate::proofs::Written::own_step, crate::proofs::Written::rest_some, rules::proofs::Buffers::after_none, crate::proofs::Written::own_none, crate::proofs::Written::own_one, crate::proofs::Written::both_written))]
fn write_own(writer: &mut Writer<'_>, nodes: &[Node; MOST_NODES], i: usize)
    requires { Sound nodes.now i × HasRoom writer.old (length (sized_all (own_at nodes.now i))) }
    ensures { WroteAll writer.old writer.new (sized_all (own_at nodes.now i)) }
{
    let node = nodes[i];
    if node.children == 0 {
        return;
    }
    write_chain(&mut *writer, node, nodes[i + 1].upper);
    if 1 < node.children {
        write_spread(&mut *writer, nodes, i + 1, node.children);
    }
}

// How many bytes the list of a tree has.
#[tactic(auto, using(crate::proofs::Written::requests_step, crate::proofs::Written::requests_none, crate::proofs::Written::list_step, crate::proofs::Standing::sound_all, crate::proofs::Standing::list_count, crate::proofs::Standing::list_few))]
pub(crate) fn list_length(nodes: &[Node; MOST_NODES], count: usize) -> usize
    requires { Stored nodes.now count }
    ensures { (stored : Stored nodes.now count) → result ≡ length (list_bytes stored.tree) }
{
    let root = nodes[0];
    let mut bytes = numbers_length(&[root.upper, root.groups]);
    for i in 0..count {
        bytes += own_length(nodes, i);
    }
    bytes
}

// Writes the list of a tree, for which there is room: the fresh pair, and then each node's requests.
pub(crate) fn write_list(writer: &mut Writer<'_>, nodes: &[Node; MOST_NODES], count: usize)
    requires { (stored : Stored nodes.now count) × HasRoom writer.old (length (list_bytes stored.tree)) }
    ensures { (stored : Stored nodes.now count) → WroteAll writer.old writer.new (list_bytes stored.tree) }
{
    let root = nodes[0];
    write_numbers(&mut *writer, &[root.upper, root.groups]);
    for i in 0..count {
        write_own(&mut *writer, nodes, i);
    }
}
