//! The times that words name, and the clock that they ask for.
ghost use Rattle.std.specs.Prelude.{◌≡◌, ◌≤◌, ◌+◌, ℕ, IfOk, IfSome, IsSomeAnd, MatchOption, MatchResult, option_map, true, false, None};
ghost use Rattle.compare_reports.specs.Times.{IsAsked, IsBounded, IsNoShift, IsNoTime, IsRefused, IsShifted};
ghost use Rattle.record_match.specs.Clock.{IsNear};
ghost use Rattle.record_match.specs.Match.{is_within};

use command_line::time_of;
use record_match::Clock;

/// How much later a record may be received, in nanoseconds, where no other time is asked for.
const WITHIN: u64 = 1_000_000_000;

/// The longest of these times, in nanoseconds: 31 years.
const LONGEST: u64 = 1_000_000_000_000_000_000;

/// Why words ask for no clock.
#[derive(Clone, Copy, Debug, PartialEq, Eq)]
pub enum ClockFault<'a> {
    /// This text is no time in which a record may be received.
    Within(&'a str),
    /// This one is no time by which a clock is ahead or behind.
    Shift(&'a str),
}

/// The clock that the words ask for: how much later a record may be received, one second where no word says that, and how far the
/// clock of what was received is ahead. A time has at most 10^18 nanoseconds.
pub fn clock_of<'a>(
    within: Option<&'a str>,
    shift: Option<&'a str>,
) -> Result<Clock, ClockFault<'a>>
    ensures sent { IfOk result (λ clock. clock.sent_delay ≤ 2000000000000000000) }
    ensures received { IfOk result (λ clock. clock.received_delay ≤ 2000000000000000000) }
    ensures asked { MatchResult result
        (λ clock. IsAsked (option_map (λ text. text.now) within.entry) (option_map (λ text. text.now) shift.entry) clock)
        (λ failure. IsRefused (option_map (λ text. text.now) within.entry) (option_map (λ text. text.now) shift.entry) failure) }
{
    let time = match within {
        Some(text) => match bounded(text) {
            Some(time) => time,
            None => return Err(ClockFault::Within(text)),
        },
        None => WITHIN,
    };
    match shift {
        Some(text) => match shifted(text, time) {
            Some(clock) => Ok(clock),
            None => Err(ClockFault::Shift(text)),
        },
        None => Ok(Clock::same(time)),
    }
}

/// The clock where what was received is ahead by this time, or behind where it begins with `-`.
fn shifted(text: &str, within: u64) -> Option<Clock>
    requires { within ≤ 1000000000000000000 }
    ensures sent { IfSome result (λ clock. clock.sent_delay ≤ 2000000000000000000) }
    ensures received { IfSome result (λ clock. clock.received_delay ≤ 2000000000000000000) }
    ensures asked { MatchOption result (IsNoShift text.now) (λ clock. IsShifted text.now within clock) }
{
    match text.strip_prefix('-') {
        Some(time) => clock_by(bounded(time), within, true),
        None => clock_by(bounded(text), within, false),
    }
}

/// The clock that is so much ahead, or behind.
fn clock_by(shift: Option<u64>, within: u64, is_behind: bool) -> Option<Clock>
    requires within { within ≤ 1000000000000000000 }
    requires shift { IfSome shift (λ time. time ≤ 1000000000000000000) }
    ensures sent { IfSome result (λ clock. clock.sent_delay ≤ 2000000000000000000) }
    ensures received { IfSome result (λ clock. clock.received_delay ≤ 2000000000000000000) }
    ensures near { MatchOption result (shift ≡ None) (λ clock. IsSomeAnd shift (λ time. (s r : ℕ)
        → IsNear within time is_behind s r (is_within clock.within (s + clock.sent_delay) (r + clock.received_delay)))) }
{
    match shift {
        Some(shift) => Some(Clock::shifted(within, shift, is_behind)),
        None => None,
    }
}

/// The nanoseconds of a time, at most the longest.
fn bounded(text: &str) -> Option<u64>
    ensures { MatchOption result (IsNoTime text.now) (λ time. IsBounded text.now time) }
{
    match time_of(text) {
        Some(time) if time <= LONGEST => Some(time),
        _ => None,
    }
}
