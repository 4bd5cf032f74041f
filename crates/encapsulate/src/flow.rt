//! The flow that a frame belongs to.
ghost use Rattle.std.specs.Prelude.{◌≡◌, ◌≤◌, ◌+◌, ◌^◌, length, drop, IsTrue};
ghost use Rattle.wire.specs.Sum.{total};
ghost use Rattle.wire.specs.Datagram.{has_type};
ghost use Rattle.wire.specs.Ip.{Ip4, Ip6, is_fragment};
ghost use Rattle.encapsulate.specs.Flow.{has_ports, shows_ports, shows_flow, ports_sum, inner_sum, source_port};

use byteorder::{BigEndian, ByteOrder};
use wire::ether::BridgeFrame;
use wire::ip_udp::{IP4_TYPE, IP6_TYPE, UDP};
use wire::octets::{fold, words};

/// The octets of an IPv4 header without options.
const IP4_HEADER: usize = 20;
/// The octets of an IPv6 header.
const IP6_HEADER: usize = 40;
/// The protocol number of TCP (RFC 9293), which is its next header too.
const TCP: u8 = 6;
/// The octets of two ports.
const PORTS: usize = 4;
/// How many fragment offsets there are: the offset has 13 bits, and More Fragments is the bit above them.
const OFFSETS: u16 = 8192;

/// The UDP source port of the packets of a frame's flow, 49152 to 65535: frames between the same stations, and of
/// the same TCP or UDP ports where they show some, have the same port (RFC 7348, 5; RFC 8926, 3.3). `stations` is the sum
/// of its addresses.
pub(crate) fn source_port(frame: &BridgeFrame, stations: u64) -> u16
    requires stations { stations ≡ total frame.now.dst + total frame.now.src }
    requires small { stations ≤ 2 ^ 24 }
    ensures { result ≡ source_port frame.now }
{
    let hash = fold(stations + words(&frame.body[..2]) + inner_sum(frame.body));
    49152 + hash % 16384
}

/// The sum of what a body shows of its flow behind its type.
fn inner_sum(body: &[u8]) -> u64
    requires { 2 ≤ length body.now }
    ensures value { result ≡ inner_sum body.now }
    ensures small { result ≤ 2 ^ 24 }
{
    if shows_flow4(body) {
        ports_sum4(behind_type(body))
    } else if shows_flow6(body) {
        ports_sum6(behind_type(body))
    } else {
        0
    }
}

/// What stands behind the type that a body begins with.
fn behind_type(body: &[u8]) -> &[u8]
    requires { 2 ≤ length body.now }
    ensures { result.now ≡ drop 2 body.now }
{
    &body[2..]
}

/// Whether a body is an IPv4 packet that shows its flow.
fn shows_flow4(body: &[u8]) -> bool
    requires { 2 ≤ length body.now }
    ensures { result ≡ shows_flow Ip4 body.now }
{
    has_type4(body) && shows_ports4(behind_type(body))
}

/// Whether a body is an IPv6 packet that shows its flow.
fn shows_flow6(body: &[u8]) -> bool
    requires { 2 ≤ length body.now }
    ensures { result ≡ shows_flow Ip6 body.now }
{
    has_type6(body) && shows_ports6(behind_type(body))
}

/// Whether a body begins with the type of IPv4.
fn has_type4(body: &[u8]) -> bool
    requires { 2 ≤ length body.now }
    ensures { result ≡ has_type Ip4 body.now }
{
    body.starts_with(&IP4_TYPE)
}

/// Whether a body begins with the type of IPv6.
fn has_type6(body: &[u8]) -> bool
    requires { 2 ≤ length body.now }
    ensures { result ≡ has_type Ip6 body.now }
{
    body.starts_with(&IP6_TYPE)
}

/// Whether octets begin with an IPv4 header, of a packet that is no fragment, and two ports.
fn shows_ports4(packet: &[u8]) -> bool
    ensures { result ≡ shows_ports Ip4 packet.now }
{
    if packet.len() < IP4_HEADER || packet[0] / 16 != 4 || packet[0] % 16 < 5 {
        return false;
    }
    let header = usize::from(packet[0] % 16) * 4;
    packet.len() >= header + PORTS && !is_fragment(packet) && has_ports(packet[9])
}

/// Whether an IPv4 header is that of a fragment: More Fragments is set, or the fragment offset is not 0.
fn is_fragment(packet: &[u8]) -> bool
    requires { 20 ≤ length packet.now }
    ensures { result ≡ is_fragment Ip4 packet.now }
{
    let flags_and_offset = BigEndian::read_u16(&packet[6..]);
    flags_and_offset / OFFSETS % 2 == 1 || flags_and_offset % OFFSETS != 0
}

/// Whether octets begin with an IPv6 header and two ports.
fn shows_ports6(packet: &[u8]) -> bool
    ensures { result ≡ shows_ports Ip6 packet.now }
{
    packet.len() >= IP6_HEADER + PORTS && packet[0] / 16 == 6 && has_ports(packet[6])
}

/// Whether a protocol's header begins with two ports.
fn has_ports(protocol: u8) -> bool
    ensures { result ≡ has_ports protocol }
{
    protocol == TCP || protocol == UDP
}

/// The sum of the addresses, the protocol and the ports of an IPv4 packet that shows them.
fn ports_sum4(packet: &[u8]) -> u64
    requires { IsTrue (shows_ports Ip4 packet.now) }
    ensures value { result ≡ ports_sum Ip4 packet.now }
    ensures small { result ≤ 2 ^ 24 }
{
    let header = usize::from(packet[0] % 16) * 4;
    let addresses = words(&packet[12..16]) + words(&packet[16..20]);
    addresses + u64::from(packet[9]) + words(&packet[header..header + PORTS])
}

/// The sum of the addresses, the next header and the ports of an IPv6 packet that shows them.
fn ports_sum6(packet: &[u8]) -> u64
    requires { IsTrue (shows_ports Ip6 packet.now) }
    ensures value { result ≡ ports_sum Ip6 packet.now }
    ensures small { result ≤ 2 ^ 24 }
{
    let addresses = words(&packet[8..24]) + words(&packet[24..40]);
    addresses + u64::from(packet[6]) + words(&packet[IP6_HEADER..IP6_HEADER + PORTS])
}
