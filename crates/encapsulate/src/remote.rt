//! What leaves for a remote endpoint.
//!
//! [`wrap`] takes the kind of tunnel and the address side by side. Its conditions are that the segment has a tunnel of the
//! kind and the endpoint an address of the family; outside them the definition of the packet is the empty text.
ghost use Rattle.std.specs.Prelude.{◌≡◌, ◌+◌, ◌++◌, ◌≤◌, [], ℕ, List, Some, IsTrue, IsNone, IfOk, is_some, length};
ghost use Rattle.wire.specs.Tag.{begins_tag};
ghost use Rattle.overlay.specs.Flood.{has_family, own_of};
ghost use Rattle.overlay.specs.Overlay.{has_segment, tunnel_at};
ghost use Rattle.overlay.specs.UnderlaySettings.{own};
ghost use Rattle.encapsulate.specs.Emission.{around};
ghost use Rattle.wire.specs.Frame.{Frame, plain};
ghost use Rattle.wire.specs.declared.ip_udp.addr.Tunnel.{Tunnel};
ghost use Rattle.encapsulate.specs.Remote.{admits, drops_tags_at, headers, largest, packet_from, remote_text};
ghost use Rattle.encapsulate.specs.Remote.{sending, sending_parts, sizes, text_behind, texts};
ghost use Rattle.encapsulate.specs.Sums.{AreSums};

use crate::emission::Emission;
use crate::sums::FrameSums;
use byteorder::{BigEndian, ByteOrder};
use overlay::underlay::{Overlay, TagRule, Underlay};
use wire::ether::{BridgeFrame, CUSTOMER_TAG, Mac, Reason, Vid};
use wire::ip_udp::{Addr, Tunnel};
use wire::outer::Head;

/// The octets of the outer IPv4, UDP and tunnel headers.
const IP4_HEADERS: u16 = 36;
/// The octets of the outer IPv6, UDP and tunnel headers.
const IP6_HEADERS: u16 = 56;
/// The octets of both MAC addresses.
const ADDRESSES: usize = 12;
/// The octets of an IPv4 header without its addresses.
const IP4_FIELDS: usize = 12;
/// The octets of an IPv6 header without its addresses.
const IP6_FIELDS: usize = 8;
/// The octets of the outer type, and of the UDP and tunnel headers.
const OTHER_FIELDS: usize = 18;

/// The packet that a frame of a segment is sent in to a remote endpoint, in the segment's tunnel of a kind (RFC 7348, 5;
/// RFC 8926, 3.4). The segment is there and has such a tunnel, and the endpoint has an own address of the family. The sums
/// are those of the frame.
///
/// `TooBig`: the outer IP packet would be longer than the MTU. `InnerTagOut`: the body begins with a tag, and the
/// segment drops those (RFC 7348, 6.1).
pub fn wrap<'a>(
    under: &Overlay,
    vid: Vid,
    kind: Tunnel,
    addr: Addr,
    frame: &BridgeFrame<'a>,
    sums: &FrameSums,
) -> Result<Emission<'a>, Reason>
    requires tunnel { IsTrue (is_some (tunnel_at under.now vid kind)) }
    requires family { IsTrue (has_family (own under.now.underlay) addr) }
    requires sums { AreSums frame.now sums.now }
    ensures sent { texts result ≡ sending under.now vid kind addr frame.now }
    ensures parts { IfOk result (λ e. e ≡ around e.head [] frame.now) }
    ensures exact { result ≡ sending_parts under.now vid kind addr frame.now }
{
    let mut head = Head::new();
    put_head(under, vid, kind, addr, frame, sums, &mut head)?;
    Ok(Emission::behind(head, frame))
}

/// Writes the headers of the packet in which a frame goes to the remote endpoint at an address, in its segment's tunnel of a
/// kind, over a head: what is sent is the head, and behind it the frame without a tag. The segment is there and has such a
/// tunnel, and the endpoint has an own address of the family. The sums are those of the frame.
///
/// `TooBig`, `InnerTagOut`: nothing is sent, and what stands in the head says nothing.
pub fn put_head(
    under: &Overlay,
    vid: Vid,
    kind: Tunnel,
    addr: Addr,
    frame: &BridgeFrame,
    sums: &FrameSums,
    head: &mut Head,
) -> Result<(), Reason>
    requires tunnel { IsTrue (is_some (tunnel_at under.now vid kind)) }
    requires family { IsTrue (has_family (own under.now.underlay) addr) }
    requires sums { AreSums frame.now sums.now }
    ensures sent { text_behind head.new.items frame.now result ≡ sending under.now vid kind addr frame.now }
{
    if let Some(reason) = unsent(under, vid, addr, frame) {
        return Err(reason);
    }
    write_head(under, vid, kind, addr, frame, sums, head);
    Ok(())
}

/// Writes the headers of the packet to an address that the frame is sent to over a head.
fn write_head(
    under: &Overlay,
    vid: Vid,
    kind: Tunnel,
    addr: Addr,
    frame: &BridgeFrame,
    sums: &FrameSums,
    head: &mut Head,
)
    requires tunnel { IsTrue (is_some (tunnel_at under.now vid kind)) }
    requires family { IsTrue (has_family (own under.now.underlay) addr) }
    requires sums { AreSums frame.now sums.now }
    requires fits { 48 + length frame.now.body ≤ 65535 }
    ensures { head.new.items ++ plain frame.now ≡ remote_text under.now vid kind addr frame.now }
{
    let underlay = under.settings();
    match addr {
        Addr::V4(dst) => {
            let hop = underlay.hop_to(Addr::V4(dst));
            let template = under.head4(vid, kind).unwrap();
            let sum = sums.for_checksum(underlay.sum4, frame);
            template.write(hop, dst, frame, sums.port, sum, head);
        }
        Addr::V6(dst) => {
            let hop = underlay.hop_to(Addr::V6(dst));
            let template = under.head6(vid, kind).unwrap();
            let sum = sums.for_checksum(underlay.sum6, frame);
            template.write(hop, dst, frame, sums.port, sum, head);
        }
    }
}

/// How many octets the packet has that a frame of a segment is sent in to a remote endpoint, in the segment's tunnel of a kind.
/// The segment is there and has such a tunnel, and the endpoint has an own address of the family. No head is made.
///
/// `TooBig`, `InnerTagOut`: nothing is sent.
pub fn packet_size(
    under: &Overlay,
    vid: Vid,
    kind: Tunnel,
    addr: Addr,
    frame: &BridgeFrame,
) -> Result<usize, Reason>
    requires tunnel { IsTrue (is_some (tunnel_at under.now vid kind)) }
    requires family { IsTrue (has_family (own under.now.underlay) addr) }
    ensures { result ≡ sizes (sending under.now vid kind addr frame.now) }
{
    if let Some(reason) = unsent(under, vid, addr, frame) {
        return Err(reason);
    }
    Ok(head_size(under.settings(), addr) + ADDRESSES + frame.body.len())
}

/// The octets of the headers in front of a frame that goes to an address: an Ethernet, an IP, a UDP and a tunnel header.
fn head_size(underlay: &Underlay, addr: Addr) -> usize
    requires { IsTrue (has_family (own underlay.now) addr) }
    ensures few { result ≤ 70 }
    ensures whole { (src : List ℕ) (kind : Tunnel) (vni : ℕ) (f : Frame) → own_of (own underlay.now) addr ≡ Some src
        → length (packet_from underlay.now kind vni src addr f) ≡ result + length (plain f) }
{
    let macs = underlay.hop_to(addr).0.len() + own_mac(underlay).0.len();
    let ip = match addr {
        Addr::V4(dst) => IP4_FIELDS + underlay.ip4.unwrap().len() + dst.len(),
        Addr::V6(dst) => IP6_FIELDS + underlay.ip6.unwrap().len() + dst.len(),
    };
    macs + ip + OTHER_FIELDS
}

/// The endpoint's own MAC address.
fn own_mac(underlay: &Underlay) -> Mac
    ensures { result ≡ underlay.now.mac }
{
    underlay.mac
}

/// Why a frame of a segment isn't sent to an address.
pub fn unsent(under: &Overlay, vid: Vid, addr: Addr, frame: &BridgeFrame) -> Option<Reason>
    requires there { IsTrue (has_segment under.now vid) }
    ensures value { result ≡ admits under.now vid addr frame.now }
    ensures fits { IsNone result → 48 + length frame.now.body ≤ 65535 }
{
    if frame.body.len() + ADDRESSES > largest(under.settings(), addr) {
        return Some(Reason::TooBig);
    }
    if begins_tag(frame.body) && drops_tags(under, vid) {
        return Some(Reason::InnerTagOut);
    }
    None
}

/// The octets of the largest frame that is sent to an address.
fn largest(underlay: &Underlay, addr: Addr) -> usize
    ensures value { result ≡ largest underlay.now addr }
    ensures small { result ≤ 65499 }
{
    usize::from(underlay.mtu.saturating_sub(headers(addr)))
}

/// The octets of the outer IP, UDP and tunnel headers of a packet to an address (RFC 7348, 5; RFC 8926, 3).
#[inline(always)]
pub fn headers(addr: Addr) -> u16
    ensures value { result ≡ headers addr }
    ensures few { result ≤ 56 }
{
    match addr {
        Addr::V4(_) => IP4_HEADERS,
        Addr::V6(_) => IP6_HEADERS,
    }
}

/// Whether a body begins with the type of a customer tag (IEEE 802.1Q, 9.6), as that of a frame that came with two does.
#[inline(always)]
pub fn begins_tag(body: &[u8]) -> bool
    requires { 2 ≤ length body.now }
    ensures { result ≡ begins_tag body.now }
{
    BigEndian::read_u16(body) == CUSTOMER_TAG
}

/// Whether a segment drops frames in tunnels that begin with a tag.
fn drops_tags(under: &Overlay, vid: Vid) -> bool
    requires there { IsTrue (has_segment under.now vid) }
    ensures { result ≡ drops_tags_at under.now vid }
{
    under.segment(vid).tags != TagRule::Pass
}
