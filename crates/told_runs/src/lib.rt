//! `tep run` on the system's files: a run, and whoever looks on for what is told besides its outputs.
//!
//! Use first: [`run_and_tell`] runs what is [`Asked`]. The run is that of `runs_on_files`; what a command prints of it, and in which
//! order, stands in `texts`, who looks on at it in `onlookers`, and the list of what it leaves out in `audit`.
//!
//! Proved: each function is safe and ends, and a run with a sieve is asked for where a time is. What a file, a pipe or a terminal
//! holds isn't proved; who looks on has its contract in its own crate, as `run_reports`, `run_counts`, `run_view`.
#![tactic(auto)]

mod audit;
mod directions;
mod objects_file;
mod onlookers;
mod outbound;
mod progress;
mod run;
mod side_file;
mod texts;
mod view_file;

pub use directions::within_of;
pub use run::{Asked, run_and_tell};
