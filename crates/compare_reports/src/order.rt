//! Records that were received in another order than they were sent.
ghost use Rattle.std.specs.Prelude.{◌≡◌};
ghost use Rattle.compare_reports.specs.Printed.{no_order, order_with};

use record_match::{Onlooker, Seen};

/// How many of the records that are both were sent before one that was received in front of them. A number that can't grow stays.
#[derive(Clone, Copy)]
pub(crate) struct Order {
    /// The latest moment at which one of those so far was sent, in nanoseconds.
    latest: u64,
    pub(crate) behind: u64,
}

impl Order {
    /// Of no records.
    pub(crate) fn none() -> Order
        ensures { result ≡ no_order }
    {
        Order {
            latest: 0,
            behind: 0,
        }
    }
}

impl Onlooker for Order {
    ghost sees = { λ old fact new. new ≡ order_with fact old };

    #[inline]
    fn see_both(&mut self, sent_moment: u64, _number: u64, _received: &Seen) {
        if sent_moment < self.latest {
            self.behind = self.behind.saturating_add(1);
        } else {
            self.latest = sent_moment;
        }
    }

    #[inline]
    fn see_received(&mut self, _number: u64, _received: &Seen) {}

    #[inline]
    fn see_sent(&mut self, _number: u64, _sent: &Seen) {}
}
