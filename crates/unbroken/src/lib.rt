// The unbroken run of days that begins with today, as closed windows carry it, one after another and in any order (RULES.md, 10).
#![tactic(auto)]

ghost use Rattle.std.specs.Prelude.{◌≡◌};
ghost use Rattle.unbroken.specs.Inside.Run.{earlier, follows_from, reaches, joined, with_stretch, set_aside, carry};

use matching::Window;

#[derive(Clone, Copy)]
pub struct Run {
    // Its last day as far as it is known; the day before today while none is.
    pub until: u32,
    // A stretch of days further on, each of which is covered.
    pub stretch: Option<Window>,
    // The least first day of the windows that were left out.
    pub left: Option<u32>,
}

// The lesser of the day that is kept, if one is, and another. Apart from dating's `latest`, which has `max`: one of both that is handed `min` or
// `max` is no shorter.
#[tactic(auto, unfolding(crate::specs::Inside::Run::earlier))]
pub fn earlier(known: Option<u32>, day: u32) -> u32
    ensures { result ≡ earlier known day }
{
    known.map_or(day, |known| known.min(day))
}

// What begins on the day follows on from a last day: on the next day at the latest.
#[tactic(auto, unfolding(crate::specs::Inside::Run::follows_from))]
fn follows_from(until: u32, day: u32) -> bool
    ensures { result ≡ follows_from until day }
{
    u64::from(day) <= u64::from(until) + 1
}

// The day that is kept, if one is, follows on.
#[tactic(auto, unfolding(crate::specs::Inside::Run::reaches))]
pub fn reaches(until: u32, day: Option<u32>) -> bool
    ensures { result ≡ reaches until day }
{
    day.is_some_and(|day| follows_from(until, day))
}

// A stretch of days and a window that touches it, together.
fn joined(s: Window, w: Window) -> Window
    ensures { result ≡ joined s w }
{
    Window {
        first: s.first.min(w.first),
        last: s.last.max(w.last),
    }
}

impl Run {
    // The run up to a later day: the stretch is taken into it where it follows on.
    #[tactic(auto, unfolding(crate::specs::Inside::Run::with_stretch))]
    fn with_stretch(self, until: u32) -> Run
        ensures { result ≡ with_stretch until self.stretch self.left }
    {
        match self.stretch {
            Some(s) if follows_from(until, s.first) => Run {
                until: until.max(s.last),
                stretch: None,
                left: self.left,
            },
            _ => Run { until, ..self },
        }
    }

    // A window that does not follow on yet: it is the stretch, or lengthens it; of two that lie apart the earlier one is
    // kept, and of the other its first day, as left out.
    #[tactic(auto, unfolding(crate::specs::Inside::Run::set_aside))]
    fn set_aside(self, w: Window) -> Run
        ensures { result ≡ set_aside self.until self.stretch self.left w }
    {
        let Some(s) = self.stretch else {
            return Run {
                stretch: Some(w),
                ..self
            };
        };
        if follows_from(s.last, w.first) & follows_from(w.last, s.first) {
            return Run {
                stretch: Some(joined(s, w)),
                ..self
            };
        }
        if w.first < s.first {
            return Run {
                stretch: Some(w),
                left: Some(earlier(self.left, s.first)),
                ..self
            };
        }
        Run {
            left: Some(earlier(self.left, w.first)),
            ..self
        }
    }

    // A closed window carries the run where it follows on, and is set aside where it does not.
    #[tactic(auto, unfolding(crate::specs::Inside::Run::carry))]
    pub fn carry(self, w: Window) -> Run
        ensures { result ≡ carry self w }
    {
        if follows_from(self.until, w.first) {
            return self.with_stretch(self.until.max(w.last));
        }
        self.set_aside(w)
    }
}
