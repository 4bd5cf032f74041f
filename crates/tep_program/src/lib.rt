//! The program `tep` from its words to its exit status. What it does each command has in a crate of its own, as `told_runs`,
//! `merge_on_files`, `compare_on_files` and `check_on_files`; what is told below a fault has `fault_notes`. What it works out stands
//! in the library `text_calls` and in `stream_run`, its files and its runs on them in `program_files` and `runs_on_files`.
//!
//! Use first: [`start`] gets the words of the process; [`run`] is handed them.
//!
//! Specs to read: `specs/Status`, and `compare_on_files`' `specs/Tables`.
//!
//! Proved: each function is safe and ends. The exit status is 0, 1, 2 or 3: 0 only for words that are taken or that ask for
//! help or the version, 1 only for words that are taken, 2 only for words that `clap`'s definition takes neither as the
//! program's nor as a run's of which something is told, that lack a value, ask for standard input more than once, lend digests
//! to a run that is no part, compare what a run wrote with no capture, name an event as none can be named, or a table that there
//! is none of. What a file, a pipe or a terminal holds isn't proved.
//!
//! Why it is so: what a file holds no contract can say, so this one says which statuses come. A word of the command line that
//! isn't text is refused as `words`, status 2; so is one that `clap` refuses, also where standard error can't be written.
#![tactic(auto)]

mod program;

pub use program::{run, start};
