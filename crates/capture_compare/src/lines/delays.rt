//! The lines of a table of delays.
ghost use Rattle.std.specs.Prelude.{◌≡◌, Some};
ghost use Rattle.capture_compare.specs.Tables.{delay_line, delay_lines, delay_words, delays_text, each_delay};

use crate::lines::place::AtPlace;
use record_match::tables::DelaySummary;
use std::fmt;
use timeline::Tap;

/// The lines of delays, one fact a line.
#[derive(Clone, Copy)]
pub struct DelayLines {
    /// The place, where captures of several are compared.
    pub at: Option<Tap>,
    /// How much the clock of these delays is ahead, in nanoseconds.
    pub ahead: u64,
    /// What is told, where there are delays.
    pub summary: Option<DelaySummary>,
}

impl fmt::Display for DelayLines {
    ghost output = { λ lines. Some (delays_text lines.at lines.ahead lines.summary) };

    fn fmt<W: fmt::Write>(&self, f: &mut fmt::Formatter<W>) -> fmt::Result {
        let at = AtPlace(self.at);
        match self.summary {
            None => write!(f, "{at}delays 0\n"),
            Some(summary) => {
                let lines = SummaryLines {
                    at: self.at,
                    ahead: self.ahead,
                    summary,
                };
                write!(f, "{lines}")
            }
        }
    }
}

/// The lines of delays of which there are some.
#[derive(Clone, Copy)]
struct SummaryLines {
    at: Option<Tap>,
    ahead: u64,
    summary: DelaySummary,
}

impl SummaryLines {
    /// The line of one of them.
    fn line(&self, name: &'static str, delay: u64) -> DelayLine
        ensures at { result.at ≡ self.now.at }
        ensures name { result.name.now ≡ name.now }
        ensures delay { result.delay ≡ record { ahead = self.now.ahead; delay = delay } }
    {
        DelayLine {
            at: self.at,
            name,
            delay: Delay {
                ahead: self.ahead,
                delay,
            },
        }
    }
}

impl fmt::Display for SummaryLines {
    ghost output = { λ lines. Some (delay_lines lines.at lines.ahead lines.summary) };

    fn fmt<W: fmt::Write>(&self, f: &mut fmt::Formatter<W>) -> fmt::Result {
        let at = AtPlace(self.at);
        let count = self.summary.count;
        let each = EachDelay(*self);
        write!(f, "{at}delays {count}\n{each}")
    }
}

/// The lines that tell a delay each.
#[derive(Clone, Copy)]
struct EachDelay(SummaryLines);

impl fmt::Display for EachDelay {
    ghost output = { λ each. Some (each_delay each.0.at each.0.ahead each.0.summary) };

    #[tactic(auto, unfolding(crate::specs::Tables::each_delay))]
    fn fmt<W: fmt::Write>(&self, f: &mut fmt::Formatter<W>) -> fmt::Result {
        let summary = self.0.summary;
        let least = self.0.line("least", summary.least);
        let median = self.0.line("median", summary.median);
        let nearly_all = self.0.line("99 in 100", summary.nearly_all);
        let greatest = self.0.line("greatest", summary.greatest);
        let step = DelayLine {
            at: self.0.at,
            name: "step",
            delay: Delay {
                ahead: 0,
                delay: summary.step,
            },
        };
        write!(f, "{least}{median}{nearly_all}{greatest}{step}")
    }
}

/// The line of a delay.
#[derive(Clone, Copy)]
struct DelayLine {
    at: Option<Tap>,
    name: &'static str,
    delay: Delay,
}

impl fmt::Display for DelayLine {
    ghost output = { λ line. Some (delay_line line.at line.name.now line.delay.ahead line.delay.delay) };

    fn fmt<W: fmt::Write>(&self, f: &mut fmt::Formatter<W>) -> fmt::Result {
        let at = AtPlace(self.at);
        let name = self.name;
        let delay = self.delay;
        write!(f, "{at}delay {name} {delay}\n")
    }
}

/// A delay in nanoseconds, on a clock that is so much ahead.
#[derive(Clone, Copy)]
struct Delay {
    ahead: u64,
    delay: u64,
}

impl fmt::Display for Delay {
    ghost output = { λ delay. Some (delay_words delay.ahead delay.delay) };

    fn fmt<W: fmt::Write>(&self, f: &mut fmt::Formatter<W>) -> fmt::Result {
        if self.ahead <= self.delay {
            let later = self.delay - self.ahead;
            write!(f, "{later}")
        } else {
            let earlier = self.ahead - self.delay;
            write!(f, "-{earlier}")
        }
    }
}
