// A reflected tree of the old product, read and written as the list that `grow` reads (RULES.md, 20).
#![tactic(auto)]

mod nodes;
mod reading;
mod repeating;
mod writing;

ghost use Rattle.std.specs.Prelude.{◌≡◌};
ghost use Rattle.rules.specs.Answers.{answer, then};
ghost use Rattle.rules.specs.Says.{says};
ghost use Rattle.reflected_tree.specs.Reflected.{Reflected, node_count};
ghost use Rattle.reflected_tree.specs.Reading.{reflected_of, reflected_answer, reflected_buffer};
ghost use Rattle.reflected.specs.Inside.Reading.{TreeIn};

use nodes::{MOST_NODES, NO_NODE, Node};
use reading::read_tree;
use repeating::id_repeats;
use rules::Refusal;
use writer::Writer;
use writing::{list_length, write_list};

// A tree whose ids differ: how many nodes it has, which then stand in the first places.
fn read(bytes: &[u8], nodes: &mut [Node; MOST_NODES]) -> Result<usize, Refusal>
    ensures result_value { says result ≡ then (reflected_of bytes.now) λ t. answer (node_count t) }
    ensures tree_in { (t : Reflected) → reflected_of bytes.now ≡ answer t → TreeIn nodes.new t }
{
    let count = read_tree(bytes, &mut *nodes)?;
    if id_repeats(nodes, count) {
        return Err(Refusal::IdRepeats);
    }
    Ok(count)
}

// Reads a reflected tree and writes its list at the start of a buffer: how many bytes it has. 30 comes last, so that the list is measured before
// any of it is written.
pub fn reflected(bytes: &[u8], buffer: &mut [u8]) -> Result<usize, Refusal>
    ensures result_value { says result ≡ reflected_answer bytes.now buffer.old }
    ensures buffer_value { buffer.new ≡ reflected_buffer (reflected_of bytes.now) buffer.old }
{
    let mut nodes = [NO_NODE; MOST_NODES];
    let count = read(bytes, &mut nodes)?;
    let length = list_length(&nodes, count);
    let mut writer = Writer::new(buffer, 0);
    if writer.too_short(length) {
        return Err(Refusal::BufferShort);
    }
    write_list(&mut writer, &nodes, count);
    Ok(length)
}
