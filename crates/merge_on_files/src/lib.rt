//! Parts of a run, in their folders, made the whole run again.
//!
//! Use first: [`merge`] puts the parts in some folders together and writes the whole run into another; it answers the
//! [`MergedTexts`], as far as [`TextsAsked`] asks for them. What it does over streams stands in `part_merge`, and of tables,
//! counts and tunnels in `run_counts::parts` and `tunnel_traffic::told`.
//!
//! It has no specs of its own.
//!
//! Proved: each function is safe and ends. A merge has 255 ports at most. What a file, a pipe or a terminal holds isn't proved.
//!
//! Why it is so: a merge prints tables and counts, and writes none, as a whole run does: the folder of a merge and that of the
//! run are the same. It takes no `--tables-at`: a moment would have to be the same in all parts, which no file tells.
#![tactic(auto)]

mod looking;
mod merged_texts;
mod merging;
mod opening;

pub use merged_texts::{MergedTexts, TextsAsked};
pub use merging::merge;
