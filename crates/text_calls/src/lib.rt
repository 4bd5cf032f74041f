//! What the program does for its user, as calls over texts: octets in, octets out. No file is opened here.
//!
//! Use first: [`check_text`] looks at a settings text and a changes text; in two steps, [`read_texts`] reads them and
//! [`check_read`] looks at what was read of them. [`stream_code`] is the exit status of a
//! [`StreamFault`](stream_run::StreamFault), [`failure_of_run`] why the program gives up for it. [`tap_of`] and [`segments_of`]
//! say what words of its line name.
//!
//! Specs to read, in order: `specs/Check`, `specs/Status`.
//!
//! Proved: a look at texts answers the stated line of their numbers, or the first fault, the settings' before the changes',
//! unless memory was refused; in two steps, what both mean or that fault, and the line of what was read. The exit status of a
//! fault of a run over streams is the stated one, and such a fault keeps it where the program gives up for it. A list of
//! segments is asked for as it means, or refused with its fault.
//!
//! Proved besides:
//! - Ports are numbered in their order: `tap_of`.
#![tactic(auto)]

mod check;
mod status;
mod words;

pub use check::{check_read, check_text, read_texts};
pub use status::{failure_of_run, stream_code};
pub use words::{segments_of, tap_of};
