//! The program's command line, read with `clap`: what it asks for, and the values that stand in it.
//!
//! Use first: [`line_of`] reads all words as a [`Line`], or answers a [`LineFault`]. [`capture_name`] tells the file and the
//! interface that a capture's name asks for, and [`time_of`] the nanoseconds of a time (`10ms`).
//!
//! Specs to read, in order: `specs/Meaning`, `specs/Capture`, `specs/Time`, `specs/App`.
//!
//! Proved: where `line_of` answers a line, its command and values are those that `clap`'s own definition of simple commands
//! gives for the words, or where it doesn't take them, those that it gives of a run which may leave its folder out and of which
//! something is told. Each fault but OutOfMemory comes only where that definition says so of the words. A line has no empty
//! name, at most one capture that is standard input, one thing at most that goes to standard output, digests for a part
//! alone, something to compare, and a depth of 1 to 4. A capture's name is parted at its last `#`. A text is a time exactly where it
//! is a number without leading zeros, below 2^64, and one of four units, of less than 2^64 nanoseconds.
//!
//! Proved besides:
//! - Refused comes only where that definition takes the words as neither; NoValue and Unpaired only where it takes them
//!   and they mean no line, since a required value is missing or `compare` has captures as it doesn't take them, NoCheck
//!   where they mean none since `fabric` has other words than `check` and leaves;
//!   NoFolder and Ignored only where they mean none either; InputTwice only where it takes them and more than one
//!   capture's file is standard input, NoSegments only where it takes them and they lend digests to a run that is no
//!   part, OutputTwice only where it takes them and two things go to standard output, NoCapture only
//!   where it takes them and they compare what a run wrote with no capture: `line_of`.
//! - The file and the interface of a capture's name are what stands before and behind its last `#`, the whole name
//!   where there is none, and no interface where nothing stands behind it: `capture_name`.
//!
//! Why it is so: the words are read in a crate of their own over `clap`, whose own definition says what they mean. Standard
//! input is a capture by the name `-`, from where it stands, and not `/dev/stdin` opened anew. The texts of settings and
//! changes are files whatever their names. That standard input is one capture at most is asked of the words, so its refusal is
//! part of the contract on them.
#![tactic(auto)]

mod arguments;
mod capture;
mod commands;
mod comparing;
mod line;
mod matches;
mod time;
mod words;

pub use capture::{CaptureName, NO_CAPTURE, STANDARD_INPUT, STANDARD_OUTPUT, capture_name};
pub use line::{Line, LineFault, line_of};
pub use time::time_of;
