//! A page of what a run gave, made of the files in its folder.
//!
//! Use first: [`make_page`] reads the folder's decision lines and what was kept of the texts that a run prints, and writes the
//! page.
//!
//! It has no specs of its own: what is counted `report_counts` says, and what stands on the page `report_page`.
//!
//! Proved: each function is safe and ends. That the page has the numbers of all lines is tested.
//!
//! Why it is so: the lines are read twice, for the first and the last moment and then for the counts, since time is cut into
//! spans by both; so the memory doesn't grow with them. What was printed is read whole: it is bounded, but for listings of
//! tables, of which the page shows the first.
#![tactic(auto)]

mod lines;
mod making;

pub use making::make_page;
