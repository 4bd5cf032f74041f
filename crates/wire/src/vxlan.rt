//! The VXLAN header (RFC 7348, 5), read as a view of borrowed slices and written.
//!
//! Use first: [`VxlanView`] reads what a UDP datagram carries: the header, its [`Vni`] and the frame behind it, or the first
//! [`VxlanFault`]. [`vxlan_head`] is the header that is sent. The module knows nothing of UDP, nor of the frame inside.
//!
//! Specs to read: `specs/Vxlan`, then `specs/VxlanReading`.
//!
//! Proved: a text is read as the VNI and payload of a VXLAN packet exactly where it is one, elsewhere the answer is
//! `ShortTunnel` or `NoVniFlag`, in that order; all other bits are free. What is written reads back with any text behind it
//! (`laws::one_reading`).
//!
//! Why it is so: a [`VxlanFault`] converts into the reason of a drop of the same name, so that a caller passes it on by `?`.

mod header;
pub mod laws;
mod view;
mod vni;

pub use header::vxlan_head;
pub use view::{VxlanFault, VxlanView};
pub use vni::Vni;
