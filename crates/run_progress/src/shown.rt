//! The line that is shown.
ghost use Rattle.std.specs.Prelude.{◌≡◌, Some};
ghost use Rattle.run_progress.specs.Shown.{shown_text};

use capture_survey::Moment;
use std::fmt;

/// How far a run is. It prints as ` 37 %, 1234567 events, 812345 a second, at 1700000000.123456789 s`, or without a share as
/// ` 123456789 octets, 1234567 events, ..`.
#[derive(Clone, Copy, Debug, PartialEq, Eq)]
pub struct Shown {
    /// How many in a hundred of the octets of all captures were read, where that is known: 0 to 100.
    pub share: Option<u8>,
    /// The octets that were read.
    pub octets: u64,
    /// The events that came.
    pub events: u64,
    /// How many came in a second.
    pub a_second: u64,
    /// The moment of the last one, in nanoseconds.
    pub moment: u64,
}

impl fmt::Display for Shown {
    ghost output = { λ shown. Some (shown_text shown) };

    fn fmt<W: fmt::Write>(&self, f: &mut fmt::Formatter<W>) -> fmt::Result {
        let octets = self.octets;
        let events = self.events;
        let a_second = self.a_second;
        let moment = Moment(self.moment);
        match self.share {
            Some(share) => write!(
                f,
                " {share} %, {events} events, {a_second} a second, at {moment} s"
            ),
            None => write!(
                f,
                " {octets} octets, {events} events, {a_second} a second, at {moment} s"
            ),
        }
    }
}
