//! Heads, and the parts that both families share.
ghost use Rattle.std.specs.Prelude.{◌≡◌, ◌≤◌, ◌+◌, ◌*◌, ◌^◌, length};
ghost use Rattle.std.specs.Option.{option_map_or};
ghost use Rattle.wire.specs.Sum.{total, sent_of, complement};
ghost use Rattle.wire.specs.OuterPacket.{tunnel_header};
ghost use Rattle.wire.specs.OuterTemplate.{blank_udp};

use crate::ether::BridgeFrame;
use crate::geneve::geneve_head;
use crate::ip_udp::Tunnel;
use crate::octets::{sent_sum, words};
use crate::vxlan::{Vni, vxlan_head};
use arrayvec::ArrayVec;

/// The headers in front of a frame, of at most 70 octets: an Ethernet, an IPv6, a UDP and a tunnel header.
pub type Head = ArrayVec<u8, 70>;

/// The octets of a UDP header, a tunnel header without options, and both MAC addresses of a frame.
pub(crate) const BEFORE_BODY: usize = 28;

/// The tunnel header of a kind and VNI.
pub fn tunnel_head(kind: Tunnel, vni: Vni) -> [u8; 8]
    ensures { result ≡ tunnel_header kind vni }
{
    match kind {
        Tunnel::Vxlan => vxlan_head(vni),
        Tunnel::Geneve => geneve_head(vni),
    }
}

/// The UDP header whose source port, length and checksum are 0.
pub(crate) fn blank_udp(dport: u16) -> [u8; 8]
    ensures { result ≡ blank_udp dport }
{
    let [high, low] = dport.to_be_bytes();
    [0, 0, high, low, 0, 0, 0, 0]
}

/// The UDP checksum that is sent with a frame to an address, of a head whose fixed words have this sum: computed where the
/// frame's folded sum is handed in, or 0 for none (RFC 768; RFC 8200, 8.1; RFC 6935, 5).
#[inline(always)]
pub(crate) fn udp_sum(
    fixed: u64,
    dst: &[u8],
    frame: &BridgeFrame,
    sport: u16,
    sum: Option<u16>,
) -> u16
    requires small { fixed ≤ 2 ^ 24 }
    requires address { length dst.now ≤ 16 }
    requires fits { 28 + length frame.now.body ≤ 65535 }
    ensures { result
        ≡ option_map_or (λ s. sent_of (complement (fixed + total dst.now + 2 * (28 + length frame.now.body) + sport + s))) sum 0 }
{
    let Some(sum) = sum else {
        return 0;
    };
    let len = (BEFORE_BODY + frame.body.len()) as u64;
    sent_sum(fixed + words(dst) + 2 * len + u64::from(sport) + u64::from(sum))
}

/// Puts octets in place of what a head has.
pub(crate) fn copy(octets: &[u8], head: &mut Head)
    requires { length octets.now ≤ 70 }
    ensures { head.new.items ≡ octets.now }
{
    if head.len() == octets.len() {
        head.as_mut_slice().copy_from_slice(octets);
        return;
    }
    head.clear();
    match head.try_extend_from_slice(octets) {
        Ok(()) => {}
        Err(_) => unreachable!(),
    }
}
