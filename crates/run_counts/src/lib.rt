//! What a run counts, as text for whom asks: for each segment and for none what was sent and what was dropped, by its reason;
//! the changes that were refused, by theirs; for each place the frames or packets that came and left; the packets whose
//! checksums their senders left to their network cards; the cut captures.
//!
//! Use first: [`RunCounts`] looks on while `stream_run` runs, and writes the text at the end. Whoever knows such counts
//! otherwise ([`Counted`], [`Flows`], [`Refusals`]) has the same lines written of them ([`put_segments`] and its like).
//!
//! Specs to read, in order: `specs/Totals`, `specs/Summary`, `specs/Keeping`, `specs/Run`.
//!
//! Proved: behind a whole run of events with moments that never fall, the counters say what those events and the answers of
//! their segments' bridges come to: what passed at each place, the refused changes by their causes, the checksums left to the
//! card. The text is exactly the summary of these and of the tally of all decisions by segment and reason, unless memory was
//! refused at the end ([`laws::runs`]). Each count ends at the greatest of 64 bits.
//!
//! Proved besides:
//! - The lines of counts are exactly the stated ones of whoever knows them: `put_segments`, `put_changes`,
//!   `put_places`, `put_partial`, `put_cuts`, over the trait `Counted`.
//! - What passed here and there adds up place by place: `Flows::add_all`.
//!
//! Why it is so: counts by segments are the endpoint's own, read at the end; what passed at places is counted as the run goes,
//! and what leaves is measured here once more, so that who asks for no summary pays nothing. What passed at a place is said as
//! a sum over the whole list of events or answers, and each step by this: where the counters were the sums before, they are
//! those with one more. All counters are made before the run, so no event asks for memory.
#![tactic(auto)]

mod counted;
mod flow;
pub mod laws;
mod lines;
pub mod parts;
mod refusals;
mod run_counts;

pub use counted::Counted;
pub use flow::{Flow, Flows};
pub use lines::{put_changes, put_cuts, put_partial, put_places, put_segments};
pub use refusals::{Refusals, none_refused};
pub use run_counts::RunCounts;
