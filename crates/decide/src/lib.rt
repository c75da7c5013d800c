// The decision on a feature for a pass (RULES.md, 10): the grants are read, matched, and their windows dated.
#![tactic(auto)]

ghost use Rattle.std.specs.Prelude.{◌≡◌};
ghost use Rattle.rules.specs.Says.{says};
ghost use Rattle.decide.specs.Decision.{question_bad, decided, asked};
ghost use Rattle.dating.specs.Says.{decided_says};
ghost use Rattle.decide.specs.Inside.ListReading.{list_read};

use dating::{Decided, Tally};
use grant::Grants;
use matching::{Pass, Window, pass_bad};
use reader::Reader;
use rules::Refusal;

// What is asked, once it can be: about a feature, for a pass, on a day.
#[derive(Clone, Copy)]
struct Asked {
    feature: u32,
    pass: Pass,
    day: u32,
}

// 15: feature, pass l or r, or day is 0.
#[tactic(auto, unfolding(crate::specs::Decision::question_bad))]
fn question_bad(feature: u32, l: u32, r: u32, day: u32) -> bool
    ensures { result ≡ question_bad feature l r day }
{
    (feature == 0) | pass_bad(l, r, day)
}

impl Asked {
    // One reading of the whole list, from left to right (1, 2, 14): the windows of the grants that apply are counted in.
    fn read_list(self, grants: &[u8], before: Tally) -> Result<Tally, Refusal>
        ensures { says result ≡ list_read self.feature self.pass.l.0 self.pass.r.0 self.day grants.now before }
    {
        let mut t = before;
        for item in Grants::new(grants) {
            let grant = item?;
            if self.pass.granted(self.feature, grant) {
                t = t.count_in(self.day, Window::from(grant));
            }
        }
        Ok(t)
    }
}

// The decision on a feature for a pass (l, r) and a day: 15, then the whole list from left to right (1, 2, 14).
// The list is read once, and again only as long as a window that was left out follows on from the run of days by now: in all at most once
// more than there are applying grants.
#[tactic(auto, unfolding(crate::specs::Decision::decided))]
pub fn decide(feature: u32, l: u32, r: u32, day: u32, grants: &[u8]) -> Result<Decided, Refusal>
    ensures { decided_says result ≡ decided feature l r day grants.now }
{
    if question_bad(feature, l, r, day) {
        return Err(Refusal::Question);
    }
    let asked = Asked {
        feature,
        pass: Pass::new(l, r),
        day,
    };
    let mut t = Tally::unread(day);
    while t.unsettled() {
        t = asked.read_list(grants, t.again())?;
    }
    Ok(t.decision_of(day))
}

// A question in bytes: feature, l, r and day (1 or 2 for a bad one, then 15), then a grant list.
#[tactic(auto, unfolding(crate::specs::Decision::asked))]
pub fn question(bytes: &[u8]) -> Result<Decided, Refusal>
    ensures { decided_says result ≡ asked bytes.now }
{
    let mut reader = Reader::new(bytes, 0);
    let feature = reader.draw()?;
    let l = reader.draw()?;
    let r = reader.draw()?;
    let day = reader.draw()?;
    decide(feature, l, r, day, &bytes[reader.at..])
}
