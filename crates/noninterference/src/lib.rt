//! Noninterference of segments: two runs that agree in what comes to a segment agree in what leaves in it.
//!
//! Use first: [`laws::captures`] says it of whole captures, whatever else stands in them, and [`laws::events`] of lists of
//! events. [`laws::octets`] says which octets that is of what [`capture_run::run_bytes`] answers, and [`laws::sources`] what
//! comes from each capture and from the changes.
//!
//! Specs to read, in order: `specs/Coming`, `specs/Leaving`.
//!
//! Proved: two runs with the same settings that agree, source by source, in what concerns a segment have in every output
//! capture the same records of it, by moment and octets, in the same order; its decision lines are the same but for their
//! numbers. Each output capture is its header and the records of all departures, each with the segment in which it was decided.
//!
//! Proved besides:
//! - What comes from a capture is its records in order, each at its own moment where none falls, and what comes from
//!   the changes is the changes: `laws::sources`.
//!
//! Why it is so: what concerns a segment is said by [`isolation`], in each run by itself, and nothing is asked of the
//! captures. What is compared is the moment at which a record is read, which is the record's own where no moment of its capture
//! falls. Where one falls it is the greatest so far, and a record of another tenant can be what made it so.
#![tactic(auto)]

pub mod isolation;
pub mod laws;
