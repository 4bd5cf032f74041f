//! The files of a run's parts: what the parts leave in their outputs is what a merge puts together.
//!
//! Use first: [`laws::merged`] follows a run in parts from the parts' runs to the merge. [`laws::opened`] says that what a part
//! left can be opened again.
//!
//! Specs to read: `specs/Files`.
//!
//! Proved: where exactly one part is asked for each segment and one for what comes to none, each part's run stopped at no fault
//! over outputs that held nothing, and each is opened over inputs that have just what its outputs hold, the whole run of the
//! same texts and captures has no fault, and a merge to outputs of as many captures adds what comes out of it to them, octet
//! for octet, unless a read or a write fails. It asks that captures are octets and that there are fewer than 2^64 events. That
//! a file holds what was written to it isn't proved, nor that the program hands its files on so.
//!
//! Proved of parts and what a merge makes of their files, over the clauses of `stream_run::run`, `PartCapture::open`,
//! `Part::open` and `merge_streams`:
//! - Each capture that such a run leaves has a header, so that it is opened unless a read fails; and with these
//!   captures and its lines the part is opened unless a read of its lines failed, where the same two things are asked:
//!   `laws::opened`.
//!
//! Why it is so: the law stands above `stream_run`, which makes parts, and `part_merge`, which puts them together, and goes
//! over the clauses of `stream_run::run`, `PartCapture::open`, `Part::open` and `merge_streams`.
#![tactic(auto)]

pub mod laws;
