//! Link types of captures.
use pcap::kind::{FileKind, Head};
use std::fmt;

/// The link type of a capture, as pcap-linktype(7) numbers them. It prints as its number, its name where it is one that is met
/// often, and what to do.
#[derive(Clone, Copy, Debug, PartialEq, Eq)]
pub struct Link(pub u32);

/// Ethernet.
pub const ETHERNET: Link = Link(1);

impl Link {
    /// The link type that a classic capture's header tells.
    pub fn of(head: &Head) -> Option<Link> {
        let octets = head.octets();
        if FileKind::of(octets) != FileKind::Pcap {
            return None;
        }
        match octets.get(20..24) {
            Some([first, second, third, fourth]) => {
                if octets.starts_with(&[0xA1]) {
                    Some(Link(u32::from_be_bytes([*first, *second, *third, *fourth])))
                } else {
                    Some(Link(u32::from_le_bytes([*first, *second, *third, *fourth])))
                }
            }
            _ => None,
        }
    }

    /// Its name.
    fn name(self) -> Option<&'static str> {
        match self.0 {
            0 => Some("BSD loopback"),
            101 => Some("raw IP"),
            105 => Some("802.11"),
            113 => Some("Linux cooked"),
            127 => Some("802.11 with radiotap"),
            228 => Some("raw IPv4"),
            229 => Some("raw IPv6"),
            253 => Some("netlink"),
            276 => Some("Linux cooked v2"),
            _ => None,
        }
    }

    /// Whether it is what `tcpdump -i any` writes.
    fn is_cooked(self) -> bool {
        self.0 == 113 || self.0 == 276
    }
}

impl fmt::Display for Link {
    fn fmt<W: fmt::Write>(&self, f: &mut fmt::Formatter<W>) -> fmt::Result {
        let number = self.0;
        write!(f, "link type {number}")?;
        if let Some(name) = self.name() {
            write!(f, ", {name}")?;
        }
        if self.is_cooked() {
            f.write_str(": capture at each port")
        } else {
            f.write_str(": Ethernet alone is read")
        }
    }
}
