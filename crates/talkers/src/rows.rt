//! Who talks to whom, counted in tables of a bounded number of rows.
//!
//! Use first: a [`Talk`] says who sent to whom in a segment, where the frames came from and where they went; of each a
//! `FrequentRows` counts what [`Passed`]. [`largest_first`] puts rows in the order in which they are told.
//!
//! Specs to read, in order: `specs/Talk`, `specs/Passed`, `specs/Order`.
//!
//! Proved: such a table keeps the talks of most frames, and what all others come to (`ranked_rows`); of two talks each has a row
//! of its own (`laws::have_rows_of_their_own`). Rows that are put in order are the same rows, those of one size in the order that
//! they had.
//!
//! Proved besides:
//! - Frames and octets of two rows add up, each up to the greatest of 64 bits, the first moment is the earlier and the
//!   last the later, in whatever order they come: `Passed`.
//!
//! Why it is so: who scans a network makes talks of a frame or two, more than there are rows, and the largest are what is asked
//! for. So rows of few frames give way, and each line tells how many frames it may lack. The order of sizes is made with the
//! text.

mod order;
mod passed;
mod rank;
mod talk;

pub use order::{TalkRow, largest_first};
pub use passed::Passed;
pub use talk::{Exit, Talk};
