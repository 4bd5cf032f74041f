//! The moments of two captures on one clock.
ghost use Rattle.std.specs.Prelude.{◌≡◌, ◌≤◌, ◌+◌, ℕ, false};
ghost use Rattle.record_match.specs.Clock.{IsNear};
ghost use Rattle.record_match.specs.Match.{is_within};

/// How the moments of two captures are put on one clock, and how much later a record may be received.
#[derive(Clone, Copy, Debug, PartialEq, Eq)]
pub struct Clock {
    /// Nanoseconds that are added to the moments of what was sent.
    pub sent_delay: u64,
    /// The same for what was received.
    pub received_delay: u64,
    /// How many nanoseconds later a record may be received, on this clock.
    pub within: u64,
}

impl Clock {
    /// One for captures of the same clock: a record is received at most so many nanoseconds later.
    pub fn same(within: u64) -> Clock
        ensures near { (s r : ℕ) → is_within result.within (s + result.sent_delay) (r + result.received_delay) ≡ is_within within s r }
        ensures sent { result.sent_delay ≡ 0 }
        ensures received { result.received_delay ≡ 0 }
    {
        Clock {
            sent_delay: 0,
            received_delay: 0,
            within,
        }
    }

    /// One for captures of two clocks, of which that of what was received is so many nanoseconds ahead, or behind: a record is
    /// received at most so many nanoseconds earlier or later. Both are at most 10^18 nanoseconds, 31 years.
    pub fn shifted(within: u64, shift: u64, is_behind: bool) -> Clock
        requires within { within ≤ 1000000000000000000 }
        requires shift { shift ≤ 1000000000000000000 }
        ensures near { (s r : ℕ) → IsNear within shift is_behind s r
            (is_within result.within (s + result.sent_delay) (r + result.received_delay)) }
        ensures sent { result.sent_delay ≤ 1000000000000000000 }
        ensures received { result.received_delay ≤ 2000000000000000000 }
    {
        if is_behind {
            Clock {
                sent_delay: 0,
                received_delay: shift + within,
                within: within + within,
            }
        } else if shift >= within {
            Clock {
                sent_delay: shift - within,
                received_delay: 0,
                within: within + within,
            }
        } else {
            Clock {
                sent_delay: 0,
                received_delay: within - shift,
                within: within + within,
            }
        }
    }
}
