//! How far a long run is, on a terminal: one line, written over the last one, and gone at the end.
//!
//! Use first: [`Progress::start`] asks whether standard error is a terminal and looks at the clock, and [`WithProgress`] puts
//! what it gives beside whoever else looks on while `stream_run` runs. [`Progress::finish`] takes the line away where a run
//! stops. The parts of it are [`Counted`], [`Pace`] and [`Shown`].
//!
//! Specs to read, in order: `specs/Counted`, `specs/Pace`, `specs/Shown`.
//!
//! Proved: whoever else looks on sees what it would alone; what is counted is each event, and the octets of its record; no line
//! is due before the first second, nor within 200 ms of the last; the share is at most 99 in a hundred while a run goes, the
//! rate is that since the start, and the text of a line is exactly the stated one. What reaches a terminal, and when a clock
//! says what, isn't.
//!
//! Proved besides:
//! - Of each event that comes, taken or passed over, one more is counted, and the octets that its record takes in a
//!   capture, up to the greatest number of 64 bits: `Counted::add`, `Progress::count`.
//! - A line is due after the first second, and then 200 ms behind the last one or later: `Pace::is_due`.
//! - The rate is that of all events since the start, rounded down, without overflow; the share is rounded down and at
//!   most 99 in a hundred: `rate_of`, `share_of`. A line has these of what was counted: `Counted::line`.
//! - Whoever else looks on sees what it would alone, and a run's contract for it is that without progress: `WithProgress`.
//!
//! Why it is so: the clock is looked at once in 4,096 events, so that an event costs a few instructions more. A clock or a write
//! that fails is passed over: a run doesn't end for its progress.
#![tactic(auto)]

mod counted;
mod pace;
mod progress;
mod screen;
mod shown;
mod with_progress;

pub use counted::Counted;
pub use pace::{Pace, rate_of, share_of};
pub use progress::Progress;
pub use screen::Screen;
pub use shown::Shown;
pub use with_progress::WithProgress;
