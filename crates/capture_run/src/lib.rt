//! Whole runs in memory: captures and changes in, captures and decision lines out.
//!
//! Use first: [`run_bytes`] reads the settings text, the changes text and the captures (pcap-savefile(5)), puts their events in
//! order of moment through an endpoint, and answers the [`Outputs`], or the first [`RunFault`].
//!
//! Specs to read, in order: `specs/Run`, `specs/Outputs`, `specs/Fault`, `specs/Sendings`, `specs/Among`, `specs/Writing`.
//!
//! Proved: a whole run answers exactly the captures and decision lines that the definition gives of the settings text, the
//! changes text and the captures, by one abstract bridge for each segment; or the first fault, in the order of settings,
//! changes, number of captures, openings, records; unless memory is refused. [`laws`] says what a part of a run has to do with
//! the whole.
//!
//! Why it is so: whole runs are a crate above the endpoint's steps. An emission to a port that isn't there can't come; the
//! definition puts it into no capture, as the code does. A run over streams (`stream_run`) is said by this same definition.
#![tactic(auto)]

mod fault;
pub mod laws;
mod outputs;
mod run;
mod step;

pub use fault::{RunFault, of_captures, of_changes, of_settings};
pub use outputs::Outputs;
pub use run::run_bytes;
