//! The outputs of a run's parts put together: files in, files out, over streams.
//!
//! Use first: a run can be cut into parts, each of which decides the events of some segments and writes their decision lines
//! and records alone. [`merge_streams`] makes of the parts' outputs those of the whole run: decision lines in order of event
//! numbers, and of each capture the records in the order that the lines tell. A [`Part`] lends the lines of a part one by one
//! and holds its [`PartCapture`]s; a record is copied as it stands there, and nothing is decided again.
//!
//! Specs to read, in order: `specs/Merged`, `specs/Whole`, `specs/Numbers`, `specs/Coming`, `specs/Left`, `specs/Blame`,
//! `specs/Waiting`; the others serve the contracts of its parts.
//!
//! Proved: where parts hold the lines and records of pieces of a run whose numbers rise, each number in one of them, and lines
//! of cut captures behind, then, unless a read or a write fails, the outputs get just the texts of all these pieces in order of
//! their numbers, and those lines, where the numbers are 1, 2 and so on; where one is missing, just the first that is is told.
//! A device is blamed only where it failed. Where reads of parts may wait, no output holds anything back where one fails, and so
//! while one waits. That any other fault of a part comes only where the part is wrong in this way isn't proved.
//!
//! Proved of a merge (`merge_streams`, `Part::open`, `PartCapture::open`):
//! - Whatever the parts hold: at `Ok` no line of theirs is left, and the lines that were written are those of events
//!   numbered 1, 2 and so on, each number once, and behind them those of cut captures: `merge_streams`.
//! - Whatever they hold, a device is blamed only where it failed. Where `merge_streams` blames a read of a part, the
//!   input of its lines failed once, or the source of one of its captures gave up, at a failed read or with no reads
//!   left, unless it had before.
//! - Where it blames a write, that output failed once, or took nothing, unless its sink had given up before.
//! - Where `Part::open` blames a read of its part, the input of its lines failed once, and it never blames a write;
//!   where `PartCapture::open` does, its input failed once or no reads are left.
//! - At every other answer no input and no output failed.
//! - Where a merge stops at a failed read of a part, and reads may wait (`may_wait` of `merge_streams`), no output
//!   holds anything back (`waits`, by `IsOutAtRead`), whatever the parts hold: before each read of a capture or of
//!   lines that weren't read ahead all goes on. A merge learns nothing of a read before it answers, and does nothing
//!   between the two; so what stands while a read waits is what stands where it fails.
//! - For a read all goes on just where reads may wait and the record that is copied, or the line that comes, wasn't
//!   read ahead whole (`may_wait_for`, `may_wait_for_line`), and at the end once for each part: so not before each
//!   record of a pipe that runs full.
//!
//! Why it is so: a whole run numbers its events from 1 on, so a merge tells the first number that no part has. Where the last
//! events are missing no number tells so; the count in `shard.txt` does. A record is written as a run writes it, little-endian
//! and in nanoseconds, also where its capture is of another style; one that holds only a front of its frame is a fault. Each
//! capture of each part reserves room for one record, 262,144 octets, and touches 65,536 of it where none is longer; each part's
//! lines reserve 131,072, and touch what their longest took. So 64 parts of 17 captures reserve 280 MiB and touch 68, and 64
//! parts of 256 captures reserve 4,104 MiB and touch 1,024.
#![tactic(auto)]

mod capture;
mod coming;
mod fault;
mod first;
mod hand_on;
mod merge;
mod part;
mod records;

pub use capture::PartCapture;
pub use fault::{MergeFault, Target};
pub use merge::merge_streams;
pub use part::Part;
