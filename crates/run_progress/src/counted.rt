//! What came so far.
ghost use Rattle.std.specs.Prelude.{◌≡◌};
ghost use Rattle.run_progress.specs.Counted.{counted_with, line_of};

use crate::pace::{rate_of, share_of};
use crate::shown::Shown;
use timeline::Happening;

/// The octets of a record's header in a capture (pcap-savefile(5)).
const RECORD_HEADER: u64 = 16;

/// How many events of a run came, and how many octets their records take in captures.
#[derive(Clone, Copy, Debug, PartialEq, Eq)]
pub struct Counted {
    pub events: u64,
    pub octets: u64,
}

impl Counted {
    /// One more event came. Counts stay at `u64::MAX`, where they come to it.
    #[inline]
    pub fn add(&mut self, happening: &Happening)
        ensures { self.new ≡ counted_with self.old happening.now }
    {
        self.events = self.events.saturating_add(1);
        if let Happening::Record(_, captured) = happening {
            self.octets = self
                .octets
                .saturating_add(RECORD_HEADER + captured.octets.len() as u64);
        }
    }

    /// What is shown of it so many nanoseconds after the start, where the last event is of this moment, in nanoseconds, and
    /// all captures together have so many octets, as far as that is known.
    pub fn line(self, total: Option<u64>, nanoseconds: u64, moment: u64) -> Shown
        ensures { result ≡ line_of self total nanoseconds moment }
    {
        Shown {
            share: match total {
                Some(total) => Some(share_of(self.octets, total)),
                None => None,
            },
            octets: self.octets,
            events: self.events,
            a_second: rate_of(self.events, nanoseconds),
            moment,
        }
    }
}
