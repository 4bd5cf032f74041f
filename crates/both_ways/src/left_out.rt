//! What isn't input, and the lines that tell it.
ghost use Rattle.std.specs.Prelude.{◌≡◌, Some};
ghost use Rattle.both_ways.specs.Line.{left_out_text};
ghost use Rattle.both_ways.specs.Sieve.{place_in};

use crate::line::Time;
use crate::place::{place_of, tap_at};
use echo_window::Origin;
use std::fmt;
use timeline::{Event, Happening};

/// Why a record isn't input.
#[derive(Clone, Copy, Debug)]
pub enum Cause {
    /// At a port: it is an echo of the frame that this record brought.
    Echo(Origin),
    /// At the underlay: the endpoint sent it.
    Sent,
}

/// A record that isn't input. It prints as its line, `p2 7 of p1 6, 41us` or `u 5 sent`, without the line's end.
#[derive(Clone, Copy, Debug)]
pub struct LeftOut {
    /// Where it was captured: 0 for the underlay, and the number of a local port.
    pub place: u8,
    /// Its number in its capture.
    pub number: u64,
    /// Nanoseconds.
    pub moment: u64,
    pub cause: Cause,
}

impl LeftOut {
    /// What is told of an event that isn't input, for this cause.
    pub(crate) fn of(event: &Event, cause: Cause) -> LeftOut
        ensures { let e = event.now in
            result ≡ record { place = place_in e.happening; number = e.number; moment = e.moment; cause = cause } }
    {
        LeftOut {
            place: place_in(&event.happening),
            number: event.number,
            moment: event.moment,
            cause,
        }
    }
}

impl fmt::Display for LeftOut {
    ghost output = { λ left. Some (left_out_text left) };

    fn fmt<W: fmt::Write>(&self, f: &mut fmt::Formatter<W>) -> fmt::Result {
        let tap = tap_at(self.place);
        let number = self.number;
        match self.cause {
            Cause::Echo(origin) => {
                let from = tap_at(origin.place);
                let brought = origin.number;
                let delay = Time(self.moment.saturating_sub(origin.moment));
                write!(f, "{tap} {number} of {from} {brought}, {delay}")
            }
            Cause::Sent => write!(f, "{tap} {number} sent"),
        }
    }
}

/// Where an event happens, which is a record.
pub(crate) fn place_in(happening: &Happening) -> u8
    ensures { result ≡ place_in happening.now }
{
    match happening {
        Happening::Change(_) => 0,
        Happening::Record(tap, _) => place_of(*tap),
    }
}
