//! What a part of a run was made from, as the small text `shard.txt` tells it.
//!
//! Use first: a [`PartRecord`] has the part's segments, the SHA-256 (FIPS 180-4) of the settings, of the changes and of each
//! capture, and how many events the part tells; [`OutputFacts`] have what is told of each of its outputs, and [`ToldTexts`] of
//! the texts that it left. [`text_of`] and [`put_texts`] write them, one fact a line, and [`record_of`] reads them back, and
//! nothing else. [`same_run`] says whether two parts are of one
//! run, and [`part_all`] whether parts are all of it. [`CaptureDigests`] are taken once and lent to each part, by
//! [`digests_text`] and [`digests_of`], and [`see_octets`] says whether they may be those of captures with so many octets.
//!
//! On the way of octets: [`DigestInput`] counts a capture's octets, and may take their digest, which [`digests_taken`] tells of all
//! captures. [`SumOutput`] sums what it hands on, [`SumInput`] fails at an end with other sums than were told, and
//! [`RecordCounts`] are counts by place.
//!
//! Specs to read, in order: `specs/InTurn`, `specs/Outputs`, `specs/Texts`, `specs/Record`, `specs/Fault`, `specs/Same`, `specs/Parting`,
//! `specs/Digests`, `specs/Lent`, `specs/Sum`, `specs/Taken`, `specs/Counts`.
//!
//! Proved: a text is read as a record just where it is that record's text, and else a fault is told that stands there; as
//! digests just where it is theirs, and else the first line at which it is none. Each input and output on the way hands on what
//! it gets, and its digest, number or sums are those of these octets. `same_run` answers Ok just where all facts but the
//! segments and the part's own events are the same, `part_all` where each VID and `none` are in exactly one part, `see_octets`
//! where captures have as many octets as told; and else the first that isn't so.
//!
//! Proved of a part's record:
//! - A text is read as a record just where it is that record's text, with as many outputs as the record's ports and
//!   two, and what is told of the texts that the part left. Where it is none's the fault is one that stands there, one of its
//!   own for the versions before: `record_of`. A text tells one record, its outputs and texts: `laws::one_text_each`.
//! - `part_all` answers Ok just where each VID of 1 to 4094 and `none` are in exactly one part, and otherwise the
//!   lowest that isn't.
//!
//! Proved of what counts on the way:
//! - `SumOutput` hands on what is written, and has the number and the sums of the octets that were taken.
//! - `DigestInput` hands on what its input gives, with its faults, and counts those octets. Its digest, where it takes one, is
//!   SHA-256, as `sha2` states it, of all octets that it handed on, and behind `finish` of all to the end; so is that of each
//!   capture whose records came by one: `digests_taken`.
//! - `RecordCounts` has a count for each place, and `count` raises that one alone.
#![tactic(auto)]

mod digest_input;
mod digest_lines;
mod digests;
mod facts;
mod fault;
pub mod laws;
mod lent;
mod outputs;
mod parting;
mod read;
mod record_counts;
mod same;
mod steps;
mod sum_input;
mod sum_output;
mod taken;
mod texts;
mod write;

pub use digest_input::DigestInput;
pub use digests::{CaptureDigest, CaptureDigests, DigestsFault, digests_of, digests_text};
pub use facts::{MOST_PORTS, PartRecord};
pub use fault::PartRecordFault;
pub use lent::{LentFault, see_octets};
pub use outputs::{MOST_OUTPUTS, OutputFacts, ToldOutputs};
pub use parting::{PartingFault, part_all};
pub use read::{ToldRecord, record_of};
pub use record_counts::RecordCounts;
pub use same::{Difference, same_run};
pub use sum_input::SumInput;
pub use sum_output::SumOutput;
pub use taken::digests_taken;
pub use texts::{ToldTexts, put_texts};
pub use write::text_of;
