//! The members of a segment, as they are told.
ghost use Rattle.std.specs.Prelude.{◌≡◌, ◌<◌, ◌≤◌, [], ◌∷◌, ◌++◌, length};

use crate::ports::port_set::MOST_PORTS;
use arrayvec::ArrayVec;
use std::marker::Model;
use wire::ether::Vid;

/// How a segment's frames leave at a port (IEEE 802.1Q, 8.8).
#[derive(Clone, Copy, Debug, PartialEq, Eq)]
pub enum Egress {
    /// With a tag of the segment's VID.
    Tagged,
    /// Without a tag.
    Untagged,
}

/// A list of at most 255 port numbers, seen by contracts as the list.
#[derive(Debug, Drop)]
pub struct PortList {
    numbers: ArrayVec<u8, MOST_PORTS>,
}

impl Model for PortList {
    ghost use Rattle.std.specs.Prelude.{ℕ, List};

    ghost Value = { List ℕ };

    ghost view = { λ l. l.numbers.items };
}

impl PortList {
    /// An empty list.
    pub fn new() -> PortList
        ensures { result ≡ [] }
    {
        PortList {
            numbers: ArrayVec::new(),
        }
    }

    /// The list of these numbers, 255 at most.
    pub fn from_slice(numbers: &[u8]) -> PortList
        requires { length numbers.now ≤ 255 }
        ensures { result ≡ numbers.now }
    {
        let mut list = PortList::new();
        for number in numbers {
            list.push(*number);
        }
        list
    }

    /// Puts a number behind the others, of which there are fewer than 255.
    pub fn push(&mut self, number: u8)
        requires { length self.old < 255 }
        ensures { self.new ≡ self.old ++ number ∷ [] }
    {
        self.numbers.push(number);
    }

    /// The numbers in their order.
    pub fn as_slice(&self) -> &[u8]
        ensures value { result.now ≡ self.now }
        ensures few { length result.now ≤ 255 }
    {
        self.numbers.as_slice()
    }
}

/// A segment: its VID, and the numbers of its member ports by how its frames leave there. A port on both lists is
/// untagged.
#[derive(Debug, Drop)]
pub struct MemberRule {
    pub vid: Vid,
    pub untagged: PortList,
    pub tagged: PortList,
}
