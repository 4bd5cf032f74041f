//! Decisions as JSON objects, one for each event of a run, written to an output of their own while the run goes.
//!
//! Use first: [`Objects`] looks on while `stream_run` runs, and writes; [`Beside`](stream_run::Beside) puts it beside whoever
//! else looks on.
//!
//! Specs to read, in order: `specs/Objects`, `specs/Run`, `specs/Onlooking`, `specs/Writing`.
//!
//! Proved: behind each event that is told, its object was written, exactly, to the output, or a part of it where the output
//! failed at it; behind such a fault nothing more is written, and it is kept in mind. So behind a run of any events, or of a part
//! of it, their objects were written, or a front of them (`laws::runs`). Whoever else looks on sees what it would alone.
//!
//! Proved besides:
//! - An object is exactly the stated text of its event's number in the run, its moment, its source with its number
//!   there, its segment and what it was answered, the outcomes place by place with the octets that left or the reason
//!   why none did; or of its cut capture: `write_drop`, `write_reply`, `write_cut`, `Objects`.
//! - Any number of outcomes finds room in a line of 65,536 octets, and no event asks for memory.
//!
//! Why it is so: an object is put together in the line of `decision_lines`, of 65,536 octets, straight from the decision, and what
//! leaves is only measured. An object of more than 600 outcomes may go on in pieces, so that there is room for any number of them.
//! The digits of an event's number are counted on. No event asks for memory.
#![tactic(auto)]

pub mod laws;
mod object;
mod objects;
mod origin;
mod outcome;
mod output;

pub use object::{write_cut, write_drop, write_reply};
pub use objects::Objects;
pub use origin::Origin;
