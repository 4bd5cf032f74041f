//! Whoever looks on while captures are compared.
ghost use Rattle.std.specs.Prelude.{◌≡◌};
ghost use Rattle.record_match.specs.Kept.{told};
ghost use Rattle.record_match.specs.Settled.{Fact};
ghost use Rattle.record_match.specs.Settled.Fact.{Both, ReceivedAlone, SentAlone};

use crate::seen::Seen;

/// Whoever looks on while captures are compared. Of each record it is told once what becomes of it, when that is settled: of
/// one that is received at once, of one that was sent alone when it can't be received any more. A list of all that was told is
/// kept nowhere, so a contract says what one fact makes of whoever looks on.
pub trait Onlooker {
    /// From the first state, being told this fact leaves the second.
    ghost sees: { Self → Fact → Self → Type 0 };

    /// The record of this number of what is received is one that was sent at this moment, in nanoseconds.
    fn see_both(&mut self, sent_moment: u64, number: u64, received: &Seen)
        ensures { sees self.old (Both sent_moment number (told received.now)) self.new };

    /// The record of this number of what is received is none that was sent.
    fn see_received(&mut self, number: u64, received: &Seen)
        ensures { sees self.old (ReceivedAlone number (told received.now)) self.new };

    /// The record of this number of what was sent wasn't received.
    fn see_sent(&mut self, number: u64, sent: &Seen)
        ensures { sees self.old (SentAlone number (told sent.now)) self.new };
}

/// Nobody looks on.
#[derive(Clone, Copy, Debug)]
pub struct Nobody;

impl Onlooker for Nobody {
    ghost sees = { λ old fact new. new ≡ old };

    #[inline]
    fn see_both(&mut self, _sent_moment: u64, _number: u64, _received: &Seen) {}

    #[inline]
    fn see_received(&mut self, _number: u64, _received: &Seen) {}

    #[inline]
    fn see_sent(&mut self, _number: u64, _sent: &Seen) {}
}
