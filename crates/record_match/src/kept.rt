//! A record that was sent, but for its octets, and the ends of a bucket.
ghost use Rattle.std.specs.Prelude.{◌≡◌, ◌<◌, ◌≤◌, ◌+◌, nat_lt, not, ◌&&◌, ◌||◌};
ghost use Rattle.record_match.specs.Kept.{behind, ends_with, ends_without, sent_of, told};
ghost use Rattle.record_match.specs.Match.{is_met_by, is_within};

use crate::seen::Seen;
use octet_row::is_same;

/// A record that was sent, but for its octets, which stand elsewhere.
#[derive(Clone, Copy)]
pub(crate) struct Kept {
    /// Nanoseconds.
    pub(crate) moment: u64,
    /// How many octets were sent before its own.
    pub(crate) at: u64,
    /// The number of the next record of its bucket, from 1; 0 where none was sent yet.
    pub(crate) next: u64,
    /// How many octets it has here, and how many more it had.
    pub(crate) length: u32,
    pub(crate) missing: u32,
    pub(crate) bucket: u32,
    /// Whether it was received.
    pub(crate) is_taken: bool,
}

impl Kept {
    /// Whether it was received, or can't be any more at this moment.
    pub(crate) fn is_over(&self, within: u64, now: u64) -> bool
        ensures { result ≡ (self.now.is_taken || nat_lt (self.now.moment + within) now) }
    {
        self.is_taken || (self.moment < now && now - self.moment > within)
    }

    /// Whether a record that is received is this one, whose octets these are.
    pub(crate) fn is_met_by(&self, octets: &[u8], within: u64, received: &Seen) -> bool
        ensures { result ≡ is_met_by within (told received.now) (sent_of self.now octets.now) }
    {
        self.is_awaited(within, received.moment)
            && self.missing == received.missing
            && is_same(octets, received.octets)
    }

    /// Whether it may be received at a moment.
    fn is_awaited(&self, within: u64, moment: u64) -> bool
        ensures { result ≡ (not self.now.is_taken && is_within within self.now.moment moment) }
    {
        !self.is_taken && self.moment <= moment && moment - self.moment <= within
    }
}

/// The numbers of the first and of the last record of a bucket, from 1: those outside them aren't looked for. It has none where
/// the last is less than the first.
#[derive(Clone, Copy)]
pub(crate) struct Ends {
    pub(crate) first: u64,
    pub(crate) last: u64,
}

impl Ends {
    /// The same once the record with this number was received, or went; so many went before those that are kept.
    pub(crate) fn without(self, gone: u64, number: u64, next: u64) -> Ends
        requires gone { gone < 4611686018427387904 }
        requires number { number ≤ 4611686018427387904 }
        ensures { result ≡ ends_without gone number next self }
    {
        if self.first.max(gone + 1) == number {
            Ends {
                first: behind(number, next),
                last: self.last,
            }
        } else {
            self
        }
    }

    /// The same once a record with this number was sent.
    pub(crate) fn with(self, gone: u64, number: u64) -> Ends
        ensures { result ≡ ends_with gone number self }
    {
        let first = if gone < self.last && self.first <= self.last {
            self.first.min(number)
        } else {
            number
        };
        Ends {
            first,
            last: number,
        }
    }
}

/// The number behind one, where the next record of its bucket has this number, or none has.
pub(crate) fn behind(number: u64, next: u64) -> u64
    requires { number ≤ 4611686018427387904 }
    ensures { result ≡ behind number next }
{
    next.max(number + 1)
}
