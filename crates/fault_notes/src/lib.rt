//! What is told below a fault, or behind a line that is done: lines on standard error, each begun by two spaces.
//!
//! Use first: below a fault [`tell_causes`], [`tell_failed_besides`], [`tell_next_step`] and [`tell_open_files`], in this order;
//! behind a line that is done [`tell_notes`]; behind each [`tell_unended`], as [`has_unended`] found it before.
//! [`missing_interface`] and [`open_files_line`] make such lines for who prints them.
//!
//! It has no specs of its own: what is told of refused texts `text_advice` says.
//!
//! Proved: each function is safe and ends. What is told is tested.
//!
//! Why it is so: a fault itself is one line, which scripts read; what helps a reader stands below it and may be left out, as where
//! memory is refused for it. It is found out by looking at the files once more, so that no run keeps anything for it.
#![tactic(auto)]

mod causes;
mod interfaces;
mod link;
mod named;
mod next_steps;
mod notes;
mod open_files;
mod refusals;
mod unended;

pub use causes::{tell_causes, tell_failed_besides};
pub use interfaces::missing_interface;
pub use next_steps::tell_next_step;
pub use notes::tell_notes;
pub use open_files::{open_files_line, tell_open_files};
pub use unended::{has_unended, tell_unended};
