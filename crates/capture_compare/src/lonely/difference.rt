//! What of two records differs.
ghost use Rattle.std.specs.Prelude.{◌≡◌, Some};
ghost use Rattle.wire.specs.Addr.{same_addr, same_kind};
ghost use Rattle.capture_compare.specs.Difference.{difference_by, frame_difference, is_length_alone, is_tag_alone};
ghost use Rattle.capture_compare.specs.Difference.{length_difference, packet_difference, same_rest, same_vid};
ghost use Rattle.capture_compare.specs.Difference.{tag_difference, tunnel_difference};
ghost use Rattle.capture_compare.specs.Read.{as_bare, bare_in};
ghost use Rattle.capture_compare.specs.Texts.{difference_text};

use crate::carried::Tunnelled;
use crate::lonely::frame::{Bare, bare_of};
use crate::lonely::key_read::tunnelled_by_key;
use crate::lonely::segment::Reading;
use crate::lonely::words::{AddrWord, KindWord, TagWord, VniWord};
use std::fmt;
use wire::ip_udp::{Addr, Tunnel};
use wire::vxlan::Vni;

/// The one thing in which a record that was received differs from one that was sent: what was received, and what was sent. It
/// prints as `vni 5001 for 5000`, `kind geneve for vxlan`, `remote 192.0.2.1 for 192.0.2.2`, `tag 20 for none` and
/// `length 1514 for 1500`.
#[derive(Clone, Copy, Debug, PartialEq, Eq)]
pub enum Difference {
    /// The VNIs.
    Vni(Vni, Vni),
    /// The kinds of tunnel.
    Kind(Tunnel, Tunnel),
    /// The addresses to which they go.
    Remote(Addr, Addr),
    /// The VIDs of the tags of frames, where they have one.
    Tag(Option<u16>, Option<u16>),
    /// The lengths in octets of whole records; the shorter one is a front of the other.
    Length(usize, usize),
}

/// The one thing in which a record that was received differs from one that was sent, by their keys, where so many octets of each
/// are missing.
pub(crate) fn difference_by(
    reading: Reading,
    missing: u32,
    sent: &[u8],
    received: &[u8],
) -> Option<Difference>
    ensures { result ≡ difference_by reading missing sent.now received.now }
{
    match reading {
        Reading::Frame => frame_difference(missing, sent, received),
        Reading::Packet => packet_difference(sent, received),
    }
}

/// The same of packets: nothing where one is of no tunnel.
fn packet_difference(sent: &[u8], received: &[u8]) -> Option<Difference>
    ensures { result ≡ packet_difference sent.now received.now }
{
    let Some(sent) = tunnelled_by_key(sent) else {
        return None;
    };
    let Some(received) = tunnelled_by_key(received) else {
        return None;
    };
    tunnel_difference(&sent, &received)
}

/// The same of what two packets carry.
fn tunnel_difference(sent: &Tunnelled<'_>, received: &Tunnelled<'_>) -> Option<Difference>
    ensures { result ≡ tunnel_difference sent.now received.now }
{
    if !same_rest(sent, received) {
        return None;
    }
    match (
        same_kind(sent.kind, received.kind),
        same_addr(sent.destination, received.destination),
        sent.vni.get() == received.vni.get(),
    ) {
        (false, true, true) => Some(Difference::Kind(received.kind, sent.kind)),
        (true, false, true) => Some(Difference::Remote(received.destination, sent.destination)),
        (true, true, false) => Some(Difference::Vni(received.vni, sent.vni)),
        _ => None,
    }
}

/// Whether two packets carry the same options and inner texts, from the same address.
fn same_rest(sent: &Tunnelled<'_>, received: &Tunnelled<'_>) -> bool
    ensures { result ≡ same_rest sent.now received.now }
{
    sent.inner == received.inner
        && sent.options == received.options
        && same_addr(sent.source, received.source)
}

/// Whether two addresses are the same.
fn same_addr(one: Addr, other: Addr) -> bool
    ensures { result ≡ same_addr one other }
{
    one == other
}

/// Whether two kinds are the same.
fn same_kind(one: Tunnel, other: Tunnel) -> bool
    ensures { result ≡ same_kind one other }
{
    one == other
}

/// The same of frames.
fn frame_difference(missing: u32, sent: &[u8], received: &[u8]) -> Option<Difference>
    ensures { result ≡ frame_difference missing sent.now received.now }
{
    match tag_difference(bare_of(sent), bare_of(received)) {
        Some(difference) => Some(difference),
        None => length_difference(missing, sent, received),
    }
}

/// The VIDs of two frames, where they alone differ.
fn tag_difference(sent: Option<Bare<'_>>, received: Option<Bare<'_>>) -> Option<Difference>
    ensures { result ≡ tag_difference (bare_in sent.entry) (bare_in received.entry) }
{
    let Some(sent) = sent else {
        return None;
    };
    let Some(received) = received else {
        return None;
    };
    if is_tag_alone(&sent, &received) {
        Some(Difference::Tag(received.vid, sent.vid))
    } else {
        None
    }
}

/// Whether the VIDs of two frames alone differ.
fn is_tag_alone(sent: &Bare<'_>, received: &Bare<'_>) -> bool
    ensures { result ≡ is_tag_alone (as_bare sent.now) (as_bare received.now) }
{
    sent.addresses == received.addresses
        && sent.body == received.body
        && !same_vid(sent.vid, received.vid)
}

/// Whether two VIDs are the same, or neither is there.
fn same_vid(one: Option<u16>, other: Option<u16>) -> bool
    ensures { result ≡ same_vid one other }
{
    match (one, other) {
        (Some(one), Some(other)) => one == other,
        (None, None) => true,
        (Some(_), None) | (None, Some(_)) => false,
    }
}

/// The lengths of two records, where they alone differ: of those that are cut nobody knows how they go on.
fn length_difference(missing: u32, sent: &[u8], received: &[u8]) -> Option<Difference>
    ensures { result ≡ length_difference missing sent.now received.now }
{
    if missing == 0 && is_length_alone(sent, received) {
        Some(Difference::Length(received.len(), sent.len()))
    } else {
        None
    }
}

/// Whether one of two records is a front of the other, and a shorter one.
fn is_length_alone(sent: &[u8], received: &[u8]) -> bool
    ensures { result ≡ is_length_alone sent.now received.now }
{
    sent.len() != received.len() && (sent.starts_with(received) || received.starts_with(sent))
}

impl fmt::Display for Difference {
    ghost output = { λ difference. Some (difference_text difference) };

    fn fmt<W: fmt::Write>(&self, f: &mut fmt::Formatter<W>) -> fmt::Result {
        match *self {
            Difference::Vni(received, sent) => {
                let received = VniWord(received);
                let sent = VniWord(sent);
                write!(f, "vni {received} for {sent}")
            }
            Difference::Kind(received, sent) => {
                let received = KindWord(received);
                let sent = KindWord(sent);
                write!(f, "kind {received} for {sent}")
            }
            Difference::Remote(received, sent) => {
                let received = AddrWord(received);
                let sent = AddrWord(sent);
                write!(f, "remote {received} for {sent}")
            }
            Difference::Tag(received, sent) => {
                let received = TagWord(received);
                let sent = TagWord(sent);
                write!(f, "tag {received} for {sent}")
            }
            Difference::Length(received, sent) => write!(f, "length {received} for {sent}"),
        }
    }
}
