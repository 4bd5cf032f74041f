//! What is counted of the decision lines of a run, for a page that shows what the run gave.
//!
//! Use first: [`read_line`] reads a decision line as a [`ReportLine`], or tells why it is none, and [`ReportCounts`] counts such
//! lines: events by where they came from, what left at each outlet, segments, reasons of drops, who sent to whom, each over 64
//! spans of time too, the first event of each reason, and which captures are cut. All memory is asked for when the counts are
//! made.
//!
//! Specs to read, in order: `specs/Tables`, `specs/Outcomes`, `specs/Lines`, `specs/Places`, `specs/Outlets`, `specs/Rows`,
//! `specs/Firsts`, `specs/Counting`, `specs/ReadBack`.
//!
//! Proved: a line tells exactly what the definition has of its fields, or the first of them that is none; each line counts one
//! more at the places that it tells, up to 2^64 - 1, and leaves all other counts as they were; and what is told is what was
//! counted. From the line of a drop come back its number, moment, source, number there, segment and reason
//! ([`drops_read_back`]), and from that of a change whether it was made, or the cause ([`replies_read_back`]). That what stands
//! behind the number of a reason or a cause is its name isn't looked at.
//!
//! Proved besides:
//! - A line, with or without its line feed, tells exactly what the definition has of its fields, or the first of them
//!   that is none: `read_line`. Outcomes are handed out one by one, in order: `Outcomes::next_outcome`.
//! - Each line counts one more at the places that it tells, each count up to 2^64 - 1, and leaves all other counts as
//!   they were: `ReportCounts::count`. Before the first line nothing is counted: `ReportCounts::new`.
//! - What is told is what was counted; 0 where there is no such source, outlet, segment, reason, cause or span:
//!   `came_at`, `left_at`, `segment_at`, `dropped`, `pair` and the others.
//!
//! Why it is so: whoever sends chooses addresses, so rows of outlets are bounded, and those that come later count together. A
//! run that is shown is over and its lines tell when it began and ended, so a first pass finds both moments and the spans are
//! fixed before the first line is counted.
#![tactic(auto)]

mod answer;
mod counts;
mod drops;
mod fault;
mod firsts;
mod laws;
mod line;
mod mark;
mod names;
mod outcomes;
mod outlets;
mod pairs;
mod read;
mod reasons;
mod segments;
mod showing;
mod sources;
mod table;

pub use counts::ReportCounts;
pub use drops::FirstDrop;
pub use fault::LineFault;
pub use laws::{drops_read_back, replies_read_back};
pub use line::{EventLine, Outcome, ReportLine};
pub use outcomes::{Leaving, Outcomes, Passage};
pub use outlets::{OTHERS, Outlet};
pub use pairs::Pair;
pub use read::read_line;
pub use segments::SegmentCount;
