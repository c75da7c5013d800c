// A page for the shift board (RULES.md, 18): a line for each grant that applies to a pass, written into a lent buffer. The list is read
// twice, once for its refusals and the number of lines, and once to write them; no grant is held.
#![tactic(auto)]

ghost use Rattle.std.specs.Prelude.{◌≡◌};
ghost use Rattle.rules.specs.Says.{says};
ghost use Rattle.writer.specs.Writing.{WroteAll};
ghost use Rattle.page.specs.Page.{page_of, page_answer, page_buffer};
ghost use Rattle.page.specs.Inside.Reading.{lines_of, lines_text, Fits};

use board::{LINE, undated, write_line};
use grant::Grants;
use matching::{Pass, pass_bad};
use rules::Refusal;
use writer::Writer;

// The first reading of the whole list, from left to right (1, 2, 14, then 31): how many of its grants apply.
fn count_lines(pass: Pass, grants: &[u8]) -> Result<usize, Refusal>
    ensures { says result ≡ lines_of pass.l.0 pass.r.0 grants.now }
{
    let mut lines = 0;
    for item in Grants::new(grants) {
        let grant = item?;
        if undated(grant) {
            return Err(Refusal::Undated);
        }
        if pass.covered_by(grant) {
            lines += 1;
        }
    }
    Ok(lines)
}

// The second reading, which ends with the last line, and is not begun where there is none: the lines are written, each byte once.
fn write_lines(writer: &mut Writer<'_>, whole: usize, pass: Pass, day: u32, grants: &[u8])
    requires { Fits pass.l.0 pass.r.0 day grants.now whole writer.old }
    ensures { WroteAll writer.old writer.new (lines_text pass.l.0 pass.r.0 day grants.now) }
{
    if whole == 0 {
        return;
    }
    let end = writer.at + whole;
    for item in Grants::new(grants) {
        match item {
            // Not met: the first reading refused nothing.
            Err(_) => return,
            Ok(g) => {
                if pass.covered_by(g) {
                    // Not refused: the grant has dates, and there is room.
                    let _ = write_line(&mut *writer, day, g);
                    if writer.at == end {
                        return;
                    }
                }
            }
        }
    }
}

// The page of a pass (l, r) on a day: 15, then the whole list from left to right (1, 2, 14, 31), then 30. Refused, nothing is written.
pub fn page(l: u32, r: u32, day: u32, grants: &[u8], buffer: &mut [u8]) -> Result<usize, Refusal>
    ensures result_value { says result ≡ page_answer l r day grants.now buffer.old }
    ensures buffer_value { buffer.new ≡ page_buffer (page_of l r day grants.now) buffer.old }
{
    if pass_bad(l, r, day) {
        return Err(Refusal::Question);
    }
    let pass = Pass::new(l, r);
    let lines = count_lines(pass, grants)?;
    if buffer.len() / LINE < lines {
        return Err(Refusal::BufferShort);
    }
    let whole = lines * LINE;
    let mut writer = Writer::new(buffer, 0);
    write_lines(&mut writer, whole, pass, day, grants);
    Ok(whole)
}
