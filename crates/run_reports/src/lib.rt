//! What a run tells besides its outputs, to whom asks: why events came out as they did, and the tables at a moment and at the
//! end.
//!
//! Use first: [`Reports`] looks on while `stream_run` runs, and keeps the text. It is shown each event before the endpoint
//! takes it, so a story is told in the state that the event found. An [`Onlooker`] is that and, where it is wanted, one who
//! counts.
//!
//! Specs to read, in order: `specs/Name`, `specs/Names`, `specs/Sought`, `specs/Report`, `specs/Onlooker`; `specs/Reading`
//! serves proofs.
//!
//! Proved: what is told is exactly the stories of the events that are asked for by their numbers or that are the first of a
//! kind which is asked for, each in the state that it found, and the tables of the segments that are asked for, before the
//! first event of the run behind a moment and at the end, unless memory was refused; and which of the names an event had, or
//! was the first of.
//!
//! Proved besides:
//! - Which texts can be names: `is_event_name`.
//!
//! Why it is so: an event is named by what its decision line has in front, its number, or its source and the number there. A
//! name that no event has is no fault of the words, since only the run knows how many events come.
#![tactic(auto)]

mod asked;
mod causes;
mod onlooker;
mod passing;
mod reading;
mod reports;
mod sought;
mod wanted;

pub use onlooker::Onlooker;
pub use passing::foreseen;
pub use reading::{Name, is_event_name, name_in};
pub use reports::Reports;
