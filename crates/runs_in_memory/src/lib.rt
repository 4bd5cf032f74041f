//! What a run over files that tell all their octets leaves in them, as files in memory do.
//!
//! Use: [`laws`]; [`run_in_memory`] is a run over [`files`], and [`texts_in_memory`] reads its texts.
//!
//! Read `specs/Left.antt`, and `memory_files/specs/Memory` for what files in memory tell.
//!
//! Proved: whatever files a program runs on, where each tells what it has left and what it holds, and standard input what it has
//! left, the contract of a run that is done says that captures of its names had texts, and that its files hold, beside what they
//! held, what comes out of the run of all these texts, octet for octet, each file its own output's ([`laws::left`]); and the
//! contract of digests says that they are those of such texts ([`laws::digested`]). Files in memory are such files, so that of
//! them both hold without a condition ([`laws::left_in_memory`], [`laws::digested_in_memory`]); and so ends a run over them
//! ([`run_in_memory`]).
//!
//! Proved besides:
//! - Files in memory are such files, so of them both hold without a condition: `laws::left_in_memory`,
//!   `laws::digested_in_memory`. So ends a run over them, with the body of the program's (`run_in_memory`), and its
//!   texts are what some of them had left (`texts_in_memory`).
//!
//! Why it is so: `runs_on_files::run_on_files` has one body for all files, and its contract speaks of what they tell, where
//! they tell it. The system's own files tell nothing; these tell everything. Which file a name opens no contract says: `Files`
//! of `std` tells a caller nothing of it.
#![tactic(auto)]

pub mod files;
pub mod laws;
mod runs;

pub use runs::{run_in_memory, texts_in_memory};
