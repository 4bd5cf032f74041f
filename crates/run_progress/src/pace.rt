//! When a line is due, and its numbers.
ghost use Rattle.std.specs.Prelude.{◌≡◌, None};
ghost use Rattle.run_progress.specs.Pace.{is_due, last_behind, rate_of, share_of};

/// The nanoseconds before the first line.
const FIRST: u64 = 1_000_000_000;

/// The nanoseconds from one line to the next, at least.
const BETWEEN: u64 = 200_000_000;

/// The greatest share while a run goes.
const NEARLY_ALL: u128 = 99;

/// Nanoseconds in a second.
const SECOND: u128 = 1_000_000_000;

/// How often a line is shown: the first after a second, and then at most one each 200 ms. It has no clock of its own.
#[derive(Clone, Copy, Debug, PartialEq, Eq)]
pub struct Pace {
    /// When the last line was due, in nanoseconds since the start.
    last: Option<u64>,
}

impl Pace {
    /// No line was due.
    pub fn new() -> Pace
        ensures { result.last ≡ None }
    {
        Pace { last: None }
    }

    /// Whether a line is due so many nanoseconds after the start. Where one is, it counts as shown.
    pub fn is_due(&mut self, nanoseconds: u64) -> bool
        ensures answer { result ≡ is_due self.old.last nanoseconds }
        ensures last { self.new.last ≡ last_behind self.old nanoseconds }
    {
        let is_due = match self.last {
            None => nanoseconds >= FIRST,
            Some(last) => nanoseconds >= last && nanoseconds - last >= BETWEEN,
        };
        if is_due {
            self.last = Some(nanoseconds);
        }
        is_due
    }
}

/// How many events come in a second, where so many came in so many nanoseconds: rounded down, 0 where no time passed, and
/// `u64::MAX` where there are more.
pub fn rate_of(events: u64, nanoseconds: u64) -> u64
    ensures { result ≡ rate_of events nanoseconds }
{
    if nanoseconds == 0 {
        return 0;
    }
    let rate = u128::from(events) * SECOND / u128::from(nanoseconds);
    u64::try_from(rate).unwrap_or(u64::MAX)
}

/// How many in a hundred of `total` octets `octets` are, rounded down: at most 99, since there may be more to come than was
/// told, and 0 where there are none.
pub fn share_of(octets: u64, total: u64) -> u8
    ensures { result ≡ share_of octets total }
{
    if total == 0 {
        return 0;
    }
    let share = u128::from(octets) * 100 / u128::from(total);
    share.min(NEARLY_ALL) as u8
}
