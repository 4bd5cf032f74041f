//! A pcapng capture split into one classic capture for each of its interfaces, on files.
//!
//! Use first: [`split`] reads a capture once, writes the files into a folder, and prints a list of them.
//!
//! Proved: each function is safe and ends. What each step of the pass tells of each interface is said by [`capture_split`]; that it
//! comes into the interface's file is tested. What a file holds isn't proved.
//!
//! Why it is so: a file is opened where its interface is described first, so one that no packet came through has a capture
//! without records, as where it is asked for alone. The memory is that of one block of the capture, of one section's
//! descriptions, and of a block of 16 KiB for each file, whatever the capture holds; so there are 256 files at most, which a
//! process may have open everywhere.
#![tactic(auto)]

pub mod capture_split;
mod listing;
mod naming;
mod pass;
mod split_file;
mod splitting;

pub use naming::file_name;
pub use splitting::split;
