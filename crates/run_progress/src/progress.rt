//! The progress of a run on standard error.
ghost use Rattle.std.specs.Prelude.{◌≡◌, false, IfSome};
ghost use Rattle.run_progress.specs.Counted.{IsBegun, counted_with, due_line};
ghost use Rattle.run_progress.specs.Pace.{last_behind};

use crate::counted::Counted;
use crate::pace::Pace;
use crate::screen::Screen;
use crate::shown::Shown;
use std::time::{Clock, Instant};
use timeline::Event;

/// The clock is looked at once in so many events.
const EVENTS_A_LOOK: u64 = 4_096;

/// How far a run is, shown on standard error as one line, which is written over the last one.
#[derive(Drop)]
pub struct Progress<'r, R> {
    rt: &'r R,
    started: Instant,
    /// The octets of all captures, where that is known.
    total: Option<u64>,
    counted: Counted,
    pace: Pace,
    /// Whether a line may stand on standard error.
    is_shown: bool,
}

impl<'r, R: Clock + Eprint + Screen> Progress<'r, R> {
    /// A run starts, whose captures have so many octets together, where that is known. None where standard error is no terminal
    /// or the clock can't be read. Each record is counted as it stands in a classic capture, so of a pcapng one, and where a
    /// sieve leaves out records, the share stays below what was read.
    pub fn start(rt: &'r R, total: Option<u64>) -> Option<Progress<'r, R>>
        ensures { IfSome result (λ p. IsBegun p.counted p.pace × (p.total ≡ total) × (p.is_shown ≡ false)) }
    {
        if !rt.is_terminal() {
            return None;
        }
        let Ok(started) = Instant::now(rt) else {
            return None;
        };
        Some(Progress {
            rt,
            started,
            total,
            counted: Counted {
                events: 0,
                octets: 0,
            },
            pace: Pace::new(),
            is_shown: false,
        })
    }
}

impl<'r, R: Clock + Eprint> Progress<'r, R> {
    /// An event comes. Where a line is due, it is shown.
    #[inline]
    pub fn count(&mut self, event: &Event)
        ensures counted { self.new.counted ≡ counted_with self.old.counted event.now.happening }
        ensures total { self.new.total ≡ self.old.total }
    {
        self.counted.add(&event.happening);
        if self.counted.events % EVENTS_A_LOOK == 0 {
            self.look(event.moment);
        }
    }

    /// Shows a line, if one is due. The last event is of this moment.
    #[cold]
    #[inline(never)]
    fn look(&mut self, moment: u64)
        ensures counted { self.new.counted ≡ self.old.counted }
        ensures total { self.new.total ≡ self.old.total }
    {
        let Ok(elapsed) = self.started.elapsed(self.rt) else {
            return;
        };
        let nanoseconds = u64::try_from(elapsed.as_nanos()).unwrap_or(u64::MAX);
        let Some(line) = self.line_at(nanoseconds, moment) else {
            return;
        };
        let rt = self.rt;
        let _ = eprint!(rt; "\r{line}\x1b[K");
        self.is_shown = true;
    }

    /// What is shown so many nanoseconds after the start, if a line is due. The last event is of this moment.
    fn line_at(&mut self, nanoseconds: u64, moment: u64) -> Option<Shown>
        ensures line { result ≡ due_line self.old.pace self.old.counted self.old.total nanoseconds moment }
        ensures pace { self.new.pace.last ≡ last_behind self.old.pace nanoseconds }
        ensures counted { self.new.counted ≡ self.old.counted }
        ensures total { self.new.total ≡ self.old.total }
    {
        if self.pace.is_due(nanoseconds) {
            Some(self.counted.line(self.total, nanoseconds, moment))
        } else {
            None
        }
    }

    /// The run ended, or stopped at a fault: takes the line away, where one was shown.
    pub fn finish(&mut self)
        ensures counted { self.new.counted ≡ self.old.counted }
        ensures total { self.new.total ≡ self.old.total }
        ensures gone { self.new.is_shown ≡ false }
    {
        if self.is_shown {
            let rt = self.rt;
            let _ = eprint!(rt; "\r\x1b[K");
            self.is_shown = false;
        }
    }
}
