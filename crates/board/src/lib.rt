// A grant's line on the shift board (RULES.md, 18.2), written into a lent buffer.
#![tactic(auto)]

mod fields;

ghost use Rattle.std.specs.Prelude.{◌≡◌, false};
ghost use Rattle.rules.specs.Says.{says};
ghost use Rattle.writer.specs.Writing.{HasRoom, Wrote, WroteAll};
ghost use Rattle.grant.specs.Says.{grant_of};
ghost use Rattle.board.specs.Board.{grant_line, undated, dated_line, line_answer, line_buffer};

use dates::LAST_DATED;
use fields::{write_feature, write_first, write_last, write_state};
use grant::Grant;
use matching::Window;
use rules::Refusal;
use writer::Writer;

// How many bytes a line has.
pub const LINE: usize = 41;

// 31: the first or last day is above 36525.
#[tactic(auto, unfolding(crate::specs::Board::undated))]
pub fn undated(g: Grant) -> bool
    ensures { result ≡ undated (grant_of g) }
{
    (LAST_DATED < g.first) | (LAST_DATED < g.last)
}

// Writes the four fields of a line, for which there is room.
fn write_fields(writer: &mut Writer<'_>, day: u32, g: Grant)
    requires { (undated (grant_of g) ≡ false) × HasRoom writer.old 41 }
    ensures { WroteAll writer.old writer.new (grant_line day (grant_of g)) }
{
    write_feature(&mut *writer, g.feature);
    write_first(&mut *writer, g.first);
    write_last(&mut *writer, g.last);
    write_state(&mut *writer, day, Window::from(g));
}

// Writes a grant's line, and moves on past it: 31, then 30; refused, none of it is written.
pub fn write_line(writer: &mut Writer<'_>, day: u32, g: Grant) -> Result<usize, Refusal>
    ensures result_value { says result ≡ line_answer writer.old.buffer.now writer.old.at day (grant_of g) }
    ensures buffer_value { writer.new.buffer.now ≡ line_buffer writer.old.buffer.now writer.old.at day (grant_of g) }
    ensures wrote { Wrote writer.old writer.new (dated_line day (grant_of g)) }
{
    if undated(g) {
        return Err(Refusal::Undated);
    }
    if writer.too_short(LINE) {
        return Err(Refusal::BufferShort);
    }
    write_fields(&mut *writer, day, g);
    Ok(LINE)
}
