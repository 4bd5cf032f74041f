//! Flood lists: the remote endpoints that a segment's broadcast, unknown and multicast frames go to (RFC 7348, 4.2, by a list
//! in place of one multicast group).
//!
//! Use first: a [`FloodList`] holds [`Remote`] endpoints, without repeats and in the order in which they were added. [`Own`]
//! are the endpoint's own addresses, which are never on one. A [`Room`] is the memory of a list of more than 16.
//!
//! Specs to read: `specs/Flood`.
//!
//! Proved: the list has no repeats and is in the order of adding, with the five refusals in their order; a refused call
//! changes nothing. A list takes and gives back its room with its 17th entry, so that adding and removing ask for no memory.
//!
//! Proved besides:
//! - A list has no repeats, stands in the order of adding, and has the five refusals in their order; a refused call
//!   changes nothing: `FloodList::add`, `remove`, `holds`, `targets`. It has as many entries as `add` is told at most,
//!   and 512 whatever that is.
//! - Adding and removing need no memory: the 17th entry takes a room that is lent, and it comes back as 16 are left, or
//!   with the list's end: `FloodList::add`, `remove`, `into_room`.
//!
//! Why it is so: a remote is a struct of tunnel kind and address, since a list of fixed capacity wants a default for its
//! items; the calls take the two side by side. Groups are allowed on the list. Rooms are of one size, 512, so that a list need
//! not say how much room it has: contracts see its entries alone.

mod fault;
mod flood_list;
mod own;
mod remote;
mod room;
mod stored;

pub use fault::{FloodFault, NotThere};
pub use flood_list::FloodList;
pub use own::Own;
pub use remote::Remote;
pub use room::Room;
