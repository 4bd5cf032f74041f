//! Frames, packets and segments, each another one than the one before.
use overlay::underlay::Tunnels;
use overlay_config::NewSegment;
use wire::ether::Vid;
use wire::ip_udp::Addr;
use wire::vxlan::Vni;

/// The n-th frame's port and VLAN, by turns.
pub(crate) fn place_of(n: u8) -> (u8, u8) {
    match n % 3 {
        0 => (1, 10),
        1 => (2, 20),
        _ => (3, 128),
    }
}

/// The n-th frame in a VLAN, to and from another station each time.
pub(crate) fn frame_of(n: u8, vid: u8) -> [u8; 18] {
    let to = n.wrapping_mul(3);
    let from = n.wrapping_mul(7);
    [
        0x02, 0, 0, 0, 0, to, 0x02, 0, 0, 0, 0, from, 0x81, 0, 0, vid, 0x08, 0,
    ]
}

/// A frame to everybody in a VLAN.
pub(crate) fn broadcast(vid: u8) -> [u8; 18] {
    [
        0xFF, 0xFF, 0xFF, 0xFF, 0xFF, 0xFF, 0x02, 0, 0, 0, 0, 0x01, 0x81, 0, 0, vid, 0x08, 0,
    ]
}

/// The remote endpoint at 198.51.100 and this octet.
pub(crate) fn remote(last: u8) -> Addr {
    Addr::V4([198, 51, 100, last])
}

/// The n-th packet from 192.0.2.2 to 192.0.2.1, by turns in VXLAN 5000 and 7000. Its frame of 60 octets goes to everybody,
/// from another station each time.
pub(crate) fn packet_of(n: u8) -> [u8; 110] {
    let (high, low) = match n % 2 {
        0 => (0x13, 0x88),
        _ => (0x1B, 0x58),
    };
    let from = n.wrapping_mul(11);
    let head = [
        0x02, 0x00, 0x00, 0x00, 0xAA, 0x01, 0x02, 0x00, 0x00, 0x00, 0xAA, 0x02, 0x08, 0x00, 0x45,
        0x00, 0x00, 0x60, 0x00, 0x00, 0x40, 0x00, 0x40, 0x11, 0xB6, 0x89, 0xC0, 0x00, 0x02, 0x02,
        0xC0, 0x00, 0x02, 0x01, 0xCA, 0x07, 0x12, 0xB5, 0x00, 0x4C, 0x00, 0x00, 0x08, 0x00, 0x00,
        0x00, 0x00, high, low, 0x00, 0xFF, 0xFF, 0xFF, 0xFF, 0xFF, 0xFF, 0x02, 0x00, 0x00, 0x00,
        0x00, from, 0x08, 0x06,
    ];
    let mut packet = [0; 110];
    packet[..64].copy_from_slice(&head);
    packet
}

/// A segment like this one with room for one entry, of another VID, and of a VNI that is by 6,872 more.
pub(crate) fn renumbered(segment: &NewSegment, vid: u16) -> Option<NewSegment> {
    if vid == segment.vid.get() {
        return None;
    }
    let mut other = *segment;
    let mut tunnel = segment.tunnels.first();
    tunnel.vni = Vni::new(6_872 + u32::from(vid))?;
    other.tunnels = Tunnels::one(tunnel);
    other.vid = Vid::new(vid)?;
    other.limit = 1;
    Some(other)
}
