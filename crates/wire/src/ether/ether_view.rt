//! The parts of an Ethernet frame.
ghost use Rattle.std.specs.Prelude.{◌≡◌, ◌+◌, ◌≤◌, ◌<◌, ◌↔◌, ◌++◌, length, take, drop, IsErr, IfOk, OnOk};
ghost use Rattle.wire.specs.Octets.{part};
ghost use Rattle.wire.specs.Ether.{SplitsTag, seen, tag_split};
ghost use Rattle.wire.specs.Tag.{SkipsTags, without_tags, has_outer_tag};

use crate::ether::{Mac, Tci};
use byteorder::{BigEndian, ByteOrder};
use std::marker::Model;
use thiserror::Error;

/// The type of a customer VLAN tag (IEEE 802.1Q, 9.4).
pub const CUSTOMER_TAG: u16 = 0x8100;
/// The type of a service VLAN tag (IEEE 802.1Q, 9.4).
const SERVICE_TAG: u16 = 0x88A8;
/// The octets of a tag: its type and its control information.
const TAG_LENGTH: usize = 4;
/// The octets of both addresses.
const ADDRESSES: usize = 12;
/// The octets of the shortest frame: both addresses and a type.
const SHORTEST: usize = ADDRESSES + 2;

/// Fewer than 14 octets.
#[derive(Clone, Copy, Debug, PartialEq, Eq, Error)]
#[error("Runt")]
pub struct Runt;

/// A frame of at least 14 octets, seen by contracts as its octets.
#[derive(Debug, Drop)]
pub struct EtherView<'a> {
    octets: &'a [u8],
}

impl<'a> Model for EtherView<'a> {
    ghost use Rattle.std.specs.Prelude.{ℕ, List, ◌≤◌, length};

    ghost Value = { List ℕ };

    ghost view = { λ v. v.octets.now };

    ghost invariant = { λ v. 14 ≤ length v.octets.now };
}

/// What stands behind the addresses of a frame.
#[derive(Clone, Copy, Debug)]
pub enum Tagging<'a> {
    /// No tag: a body of at least 2 octets.
    Plain(&'a [u8]),
    /// A tag, and the body behind it, of at least 2 octets.
    Tagged(Tci, &'a [u8]),
    /// The type of a tag, and no room for the tag and a body of 2 octets.
    Cut,
}

impl<'a> EtherView<'a> {
    /// Reads a frame. `Runt`: fewer than 14 octets, which are two addresses and a type.
    pub fn read(octets: &'a [u8]) -> Result<EtherView<'a>, Runt>
        ensures runt { IsErr result ↔ (length octets.now < 14) }
        ensures whole { IfOk result (λ view. view ≡ octets.now) }
        ensures long { OnOk result (14 ≤ length octets.now) }
    {
        if octets.len() < SHORTEST {
            return Err(Runt);
        }
        Ok(EtherView { octets })
    }

    /// The destination, octets 0 to 5.
    pub fn dst(&self) -> Mac
        ensures { result ≡ take 6 self.now }
    {
        Mac(six(self.octets, 0))
    }

    /// The source, octets 6 to 11.
    pub fn src(&self) -> Mac
        ensures { result ≡ part 6 6 self.now }
    {
        Mac(six(self.octets, 6))
    }

    /// Both addresses as they stand, octets 0 to 11.
    pub fn addresses(&self) -> &'a [u8]
        ensures part { result.now ≡ take 12 self.now }
        ensures both { result.now ≡ take 6 self.now ++ part 6 6 self.now }
        ensures first { take 6 result.now ≡ take 6 self.now }
        ensures second { drop 6 result.now ≡ part 6 6 self.now }
        ensures len { length result.now ≡ 12 }
    {
        &self.octets[..ADDRESSES]
    }

    /// What stands behind the addresses, from octet 12 on.
    pub fn after_addresses(&self) -> &'a [u8]
        ensures part { result.now ≡ drop 12 self.now }
        ensures whole { take 12 self.now ++ result.now ≡ self.now }
        ensures len { 2 ≤ length result.now }
    {
        &self.octets[ADDRESSES..]
    }

    /// Takes one customer tag off what stands behind the addresses (IEEE 802.1Q, 9.6).
    pub fn split_tag(&self) -> Tagging<'a>
        ensures value { seen result ≡ tag_split self.now }
        ensures texts { SplitsTag self.now result }
    {
        let after = self.after_addresses();
        if BigEndian::read_u16(after) != CUSTOMER_TAG {
            return Tagging::Plain(after);
        }
        if after.len() < TAG_LENGTH + 2 {
            return Tagging::Cut;
        }
        Tagging::Tagged(
            Tci::new(BigEndian::read_u16(&after[2..])),
            &after[TAG_LENGTH..],
        )
    }

    /// What stands behind the addresses, as its tags and the rest: the longest front of at most `most` whole tags, of
    /// customers (8100) and of providers (88A8).
    pub fn skip_tags(&self, most: usize) -> (&'a [u8], &'a [u8])
        ensures rest { result.1.now ≡ without_tags most (drop 12 self.now) }
        ensures whole { result.0.now ++ result.1.now ≡ drop 12 self.now }
        ensures longest { SkipsTags most (drop 12 self.now) result.0.now result.1.now }
    {
        let after = self.after_addresses();
        let rest = behind_tags(after, most);
        (&after[..after.len() - rest.len()], rest)
    }
}

/// What is left of a text behind its longest front of at most `most` tags.
fn behind_tags<'a>(text: &'a [u8], most: usize) -> &'a [u8]
    ensures rest { result.now ≡ without_tags most text.now }
    ensures shorter { length result.now ≤ length text.now }
{
    let mut rest = text;
    let mut left = most;
    while left > 0 && has_outer_tag(rest) {
        rest = &rest[TAG_LENGTH..];
        left -= 1;
    }
    rest
}

/// Whether a text begins with a whole tag.
fn has_outer_tag(text: &[u8]) -> bool
    ensures value { result ≡ has_outer_tag text.now }
{
    if text.len() < TAG_LENGTH {
        return false;
    }
    let kind = BigEndian::read_u16(text);
    kind == CUSTOMER_TAG || kind == SERVICE_TAG
}

pub(crate) fn six(octets: &[u8], at: usize) -> [u8; 6]
    requires { at + 6 ≤ length octets.now }
    ensures { result ≡ part at 6 octets.now }
{
    let mut found = [0; 6];
    found.copy_from_slice(&octets[at..at + 6]);
    found
}
