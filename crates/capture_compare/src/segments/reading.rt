//! How the octets of records are read.

/// How the octets of the records of a place are read.
#[derive(Clone, Copy, Debug, PartialEq, Eq)]
pub enum PlaceReading {
    /// As frames at the local port of this number, from 1.
    Port(u8),
    /// As keys of what packets of the underlay carry ([`crate::carried`]).
    Keys,
    /// As packets of the underlay.
    Packets,
}
