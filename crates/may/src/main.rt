// Decides on a feature for a pass. Its input, at most 65536 bytes: the numbers feature, l, r and day, then a grant list.
#![tactic(auto)]

ghost use Rattle.std.specs.Prelude.{◌≡◌, ◌≤◌, length, take};
ghost use Rattle.decide.specs.Decision.{asked};
ghost use Rattle.decision_line.specs.DecisionText.{decision_text};

use decision_line::write_decision;
use std::io;
use std::io::Read;
use writer::Writer;

// How many bytes of input are read. Each program reads its own: no library of the engine reads.
const MOST_BYTES: u64 = 65536;

// How many bytes the longest line has: `ahead 4294967295` and a line feed.
const LONGEST: usize = 17;

// Writes the line for a question at the start of a text, which has room for any, and answers its length.
fn answer(question: &[u8], text: &mut [u8]) -> usize
    requires { 17 ≤ length text.old }
    ensures prefix_len { result ≤ length text.new }
    ensures text_value { take result text.new ≡ decision_text (asked question.now) }
{
    let mut writer = Writer::new(text, 0);
    write_decision(&mut writer, decide::question(question)).unwrap_or(0)
}

fn main(rt: HostRuntime) -> io::Result<()> {
    let mut input = Vec::new(rt.alloc());
    rt.stdin().take(MOST_BYTES).read_to_end(&mut input)?;
    let mut text = [0u8; LONGEST];
    let length = answer(&input, &mut text);
    rt.write_all(&text[..length])
}
