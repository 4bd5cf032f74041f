//! The line that tells what a run forgot.
ghost use Rattle.std.specs.Prelude.{◌≡◌, Some};
ghost use Rattle.both_ways.specs.Line.{count_text, line_text, remedy_text, rounded, time_text};

use echo_window::Forgotten;
use std::fmt;

/// How many nanoseconds a microsecond has.
const MICROSECOND: u64 = 1_000;

/// How many a millisecond has.
const MILLISECOND: u64 = 1_000_000;

/// The line that tells what a run forgot for want of room, and the time with which it wouldn't have.
#[derive(Clone, Copy)]
pub struct ForgottenLine {
    /// How many nanoseconds behind its frame an echo could come.
    pub within: u64,
    pub forgotten: Forgotten,
}

impl fmt::Display for ForgottenLine {
    ghost output = { λ line. Some (line_text line) };

    fn fmt<W: fmt::Write>(&self, f: &mut fmt::Formatter<W>) -> fmt::Result {
        let count = Count(self.forgotten.count);
        let within = Time(self.within);
        let remedy = Remedy(self.forgotten.least_age);
        write!(
            f,
            "both: {count} forgotten before {within} had passed{remedy}"
        )
    }
}

/// A time as a command line names it.
#[derive(Clone, Copy)]
pub(crate) struct Time(pub(crate) u64);

impl fmt::Display for Time {
    ghost output = { λ time. Some (time_text time.0) };

    fn fmt<W: fmt::Write>(&self, f: &mut fmt::Formatter<W>) -> fmt::Result {
        let time = self.0;
        if time % MILLISECOND == 0 {
            let count = time / MILLISECOND;
            return write!(f, "{count}ms");
        }
        if time % MICROSECOND == 0 {
            let count = time / MICROSECOND;
            return write!(f, "{count}us");
        }
        write!(f, "{time}ns")
    }
}

/// How many frames were forgotten.
#[derive(Clone, Copy)]
struct Count(u64);

impl fmt::Display for Count {
    ghost output = { λ count. Some (count_text count.0) };

    fn fmt<W: fmt::Write>(&self, f: &mut fmt::Formatter<W>) -> fmt::Result {
        let count = self.0;
        if count == 1 {
            return write!(f, "1 frame was");
        }
        write!(f, "{count} frames were")
    }
}

/// What would help where this was the least age of a frame that was forgotten.
#[derive(Clone, Copy)]
struct Remedy(Option<u64>);

impl fmt::Display for Remedy {
    ghost output = { λ remedy. Some (remedy_text remedy.0) };

    fn fmt<W: fmt::Write>(&self, f: &mut fmt::Formatter<W>) -> fmt::Result {
        match self.0 {
            None | Some(0) => Ok(()),
            Some(age) => {
                let time = Time(rounded(age - 1));
                write!(f, ": --within {time} would fit")
            }
        }
    }
}

/// The greatest time up to another that is whole milliseconds; of less than one, whole microseconds; of less than one, itself.
fn rounded(time: u64) -> u64
    ensures { result ≡ rounded time }
{
    if time < MICROSECOND {
        return time;
    }
    if time < MILLISECOND {
        return time / MICROSECOND * MICROSECOND;
    }
    time / MILLISECOND * MILLISECOND
}
