//! Which event of a run a record is of that the run wrote: by the run's decision lines.
//!
//! Use first: [`RecordEvents`] reads the decision lines of a run from an [`Input`](pcap::stream::Input), forward only, in the
//! memory of one line, and tells of one record after another of one place the number of its event. An [`EventFault`] says why
//! it can't.
//!
//! Specs to read, in order: `specs/Events`, `specs/Finding`.
//!
//! Proved: the event of record k of a place is the k-th where each event stands as often as its line says that something was
//! sent at the place; and each fault but that of a read comes just where the lines have it in front of that.
//!
//! Proved besides:
//! - The event of record k of a place is the k-th where each event of the lines stands as often as its line says that
//!   something was sent there: `RecordEvents::event_of`, where it answers Ok. Line, Falls and Few come just where the
//!   lines have them in front of that, LongLine only where the next 131,072 octets have no line feed, and Read only
//!   where the input failed.

mod counting;
mod events;
mod fault;
mod telling;

pub use events::RecordEvents;
pub use fault::EventFault;
