// What windows say on a day (RULES.md, 10): they are counted in one after another, again as long as the
// tally is unsettled, and then the tally is read. A function of the windows alone.
#![tactic(auto)]

ghost use Rattle.std.specs.Prelude.{◌≡◌, ◌-◌};
ghost use Rattle.dating.specs.Says.{decision_says};
ghost use Rattle.dating.specs.Inside.Tally.{latest, run_with, open_with, over_with, coming_with, count_in, endless, unsettled, unread, again, decision_of};

use matching::Window;
use unbroken::{Run, earlier, reaches};

// What is decided on a feature.
#[derive(Clone, Copy)]
pub enum Decided {
    // On, and without an end.
    OnOpen,
    // On, and the last day of the unbroken run of days.
    OnUntil(u32),
    // Ended, and the last day.
    Ended(u32),
    // Yet to begin, and the first day.
    Ahead(u32),
    Never,
}

// What is kept of the windows.
#[derive(Clone, Copy)]
pub struct Tally {
    // The run of days, as the closed ones carry it.
    run: Run,
    // The least first day of the open ones.
    open_from: Option<u32>,
    // The greatest last day of those that have ended.
    over: Option<u32>,
    // The least first day of those that have yet to begin.
    coming: Option<u32>,
}

// The greater of the day that is kept, if one is, and another. Apart from `earlier`, as it says there.
#[tactic(auto, unfolding(crate::specs::Inside::Tally::latest))]
fn latest(known: Option<u32>, day: u32) -> u32
    ensures { result ≡ latest known day }
{
    known.map_or(day, |known| known.max(day))
}

#[tactic(auto, unfolding(crate::specs::Inside::Tally::run_with, renewals::specs::Dating::is_open))]
fn run_with(r: Run, w: Window) -> Run
    ensures { result ≡ run_with r w }
{
    if w.is_open() { r } else { r.carry(w) }
}

// These three differ in the test, in the day that is kept and in how: one that is handed a test and a day would be no shorter, and its calls longer.
#[tactic(auto, unfolding(crate::specs::Inside::Tally::open_with, renewals::specs::Dating::is_open))]
fn open_with(known: Option<u32>, w: Window) -> Option<u32>
    ensures { result ≡ open_with known w }
{
    if w.is_open() {
        return Some(earlier(known, w.first));
    }
    known
}

#[tactic(auto, unfolding(crate::specs::Inside::Tally::over_with, renewals::specs::Dating::has_ended, renewals::specs::Dating::is_open))]
fn over_with(day: u32, known: Option<u32>, w: Window) -> Option<u32>
    ensures { result ≡ over_with day known w }
{
    if w.has_ended(day) {
        return Some(latest(known, w.last));
    }
    known
}

#[tactic(auto, unfolding(crate::specs::Inside::Tally::coming_with, renewals::specs::Dating::yet_to_begin))]
fn coming_with(day: u32, known: Option<u32>, w: Window) -> Option<u32>
    ensures { result ≡ coming_with day known w }
{
    if w.yet_to_begin(day) {
        return Some(earlier(known, w.first));
    }
    known
}

impl Tally {
    // Before the first reading the day itself is left out, so that one is needed.
    #[tactic(auto, unfolding(crate::specs::Inside::Tally::unread))]
    pub fn unread(day: u32) -> Tally
        ensures { result ≡ unread day }
    {
        Tally {
            run: Run {
                until: day.saturating_sub(1),
                stretch: None,
                left: Some(day),
            },
            open_from: None,
            over: None,
            coming: None,
        }
    }

    // Before another reading nothing is left out yet.
    #[tactic(auto, unfolding(crate::specs::Inside::Tally::again))]
    pub fn again(self) -> Tally
        ensures { result ≡ again self }
    {
        Tally {
            run: Run {
                until: self.run.until,
                stretch: None,
                left: None,
            },
            ..self
        }
    }

    // One more window, counted in.
    #[tactic(auto, unfolding(crate::specs::Inside::Tally::count_in))]
    pub fn count_in(self, day: u32, w: Window) -> Tally
        ensures { result ≡ count_in day self w }
    {
        Tally {
            run: run_with(self.run, w),
            open_from: open_with(self.open_from, w),
            over: over_with(day, self.over, w),
            coming: coming_with(day, self.coming, w),
        }
    }

    // The run meets an open window.
    #[tactic(auto, unfolding(crate::specs::Inside::Tally::endless))]
    fn endless(self) -> bool
        ensures { result ≡ endless self }
    {
        reaches(self.run.until, self.open_from)
    }

    // Another reading is needed: a window that was left out follows on from the run by now.
    #[tactic(auto, unfolding(crate::specs::Inside::Tally::unsettled))]
    pub fn unsettled(self) -> bool
        ensures { result ≡ unsettled self }
    {
        if self.endless() {
            return false;
        }
        reaches(self.run.until, self.run.left)
    }

    // What the tally says in the end.
    #[tactic(auto, unfolding(crate::specs::Inside::Tally::decision_of))]
    pub fn decision_of(self, day: u32) -> Decided
        ensures { decision_says result ≡ decision_of day self }
    {
        if self.endless() {
            return Decided::OnOpen;
        }
        if day <= self.run.until {
            return Decided::OnUntil(self.run.until);
        }
        match (self.over, self.coming) {
            (Some(day), _) => Decided::Ended(day),
            (None, Some(day)) => Decided::Ahead(day),
            (None, None) => Decided::Never,
        }
    }
}
