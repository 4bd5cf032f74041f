//! The Geneve header with its options (RFC 8926, 3.4 and 3.5), read as a view of borrowed slices and written.
//!
//! Use first: [`GeneveView`] reads what a UDP datagram carries: the header, its network identifier, its options
//! ([`GeneveOptions`]) and the frame behind it, or the first [`GeneveFault`]. [`Known`] lists the critical options that a
//! reader takes. [`geneve_head`] is the header that is sent, which has no options. The module knows nothing of UDP, nor of
//! the frame inside.
//!
//! Specs to read: `specs/GeneveOptions` and `specs/Geneve`, then `specs/GeneveReading`; `specs/GeneveSeen` is what contracts
//! see of an option.
//!
//! Proved: a text is read as the VNI, options and payload of a Geneve packet exactly where it is one that is taken, elsewhere
//! the first of the seven faults is answered, in their order. The options come in turn, each body a stated slice, and each
//! critical one is on the known list by class and whole type. What is written reads back with any text behind it
//! (`laws::one_reading`, `laws::one_list_of_options`).
//!
//! Proved besides:
//! - A text is read as the VNI, options and payload of a Geneve packet exactly where it is one. Elsewhere the seven
//!   faults come, in their order; all other bits are free: `GeneveView::read`, `laws::one_reading`.
//!
//! Why it is so: options are always walked to the end, whatever the bit C says, so options whose lengths don't add up are
//! reported before an unknown critical one. An option is known by its class and its whole type octet, high bit included. A
//! [`GeneveFault`] converts into the reason of a drop of the same name, so that a caller passes it on by `?`.

mod header;
mod known;
pub mod laws;
mod options;
mod view;

pub use header::geneve_head;
pub use known::{Known, KnownFull};
pub use options::{GeneveOption, GeneveOptions};
pub use view::{GeneveFault, GeneveView};
