//! Who talks to whom in the segments of an endpoint, counted as a run goes, as text for whom asks: for each segment who sent to
//! whom, by addresses and places, how much, and from when to when.
//!
//! Use first: [`Talkers`] looks on while `stream_run` runs, and makes the text behind it; [`Beside`](stream_run::Beside) puts it
//! beside whoever else looks on.
//!
//! Specs to read, in order: `specs/Run`, `specs/Talkers`, `specs/Lines`.
//!
//! Proved: behind a run of any events, or of a part of it, the table keeps of the frames of those events and the answers of
//! their segments' bridges the talks of most frames (`laws::runs`), no two in one row (`laws::have_rows_of_their_own`), and the
//! text is exactly the lines of these. Whoever else looks on sees what it would alone.
//!
//! Proved besides:
//! - A row counts of a segment, source, place, destination and place where the bridge sent them the frames, their octets, and
//!   the moments of the first and the last, and tells how many frames may have come before. Rows and what all others come to
//!   are all frames; while no more than 4,096 talks come, each has its row and counts all: `laws::runs`.
//! - The text is exactly the lines of these, the largest of each segment first: `Talkers::text`.
//!
//! Why it is so: a dropped frame's addresses stand in no decision, so what comes is kept from the sight of an event to its
//! answer. The table is made before the run, so no event asks for memory.
#![tactic(auto)]

mod coming;
pub mod laws;
mod lines;
pub mod rows;
mod talkers;

pub use talkers::Talkers;
