//! The underlay's settings, and the ways to a segment.
ghost use Rattle.std.specs.Prelude.{◌≡◌, [], ◌∷◌};

use crate::tests::packets::{NEXT_HOP, host4, host6, octets6, tunnel, underlay};
use overlay::flood::{FloodFault, FloodList, NotThere, Own};
use overlay::underlay::{
    Hops, Overlay, PeerRule, SegmentTunnel, TagRule, TunnelRule, Tunnels, Underlay,
};
use std::alloc::AllocError;
use std::test::Fail;
use wire::ether::{Mac, Vid};
use wire::ip_udp::{Addr, Tunnel};
use wire::vxlan::Vni;

/// The first port of which another kind is told.
fn wrong_kind(underlay: &Underlay, ports: &[(u16, Option<Tunnel>)]) -> Option<u16> {
    for (port, kind) in ports {
        if underlay.kind_at(*port) != *kind {
            return Some(*port);
        }
    }
    None
}

const PORTS: [(u16, Option<Tunnel>); 4] = [
    (4789, Some(Tunnel::Vxlan)),
    (6081, Some(Tunnel::Geneve)),
    (4788, None),
    (53, None),
];

#[test]
fn a_port_has_the_kind_of_its_tunnels(rt: HostRuntime) {
    let underlay = underlay(rt.alloc(), 1);
    assert_eq!(rt; wrong_kind(&underlay, &PORTS), None);
    assert!(rt; underlay.port_of(Tunnel::Vxlan) == 4789);
    assert!(rt; underlay.port_of(Tunnel::Geneve) == 6081);
}

/// Whether the addresses that end with 1 are own ones, and those that end with 2 aren't.
fn has_own_addresses(underlay: &Underlay) -> bool {
    underlay.is_own(host4(1))
        && !underlay.is_own(host4(2))
        && underlay.is_own(host6(1))
        && !underlay.is_own(host6(2))
}

#[test]
fn own_addresses_are_of_both_families(rt: HostRuntime) {
    let underlay = underlay(rt.alloc(), 1);
    assert!(rt; has_own_addresses(&underlay));
    let wanted = Own {
        ip4: Some([192, 0, 2, 1]),
        ip6: Some(octets6(1)),
    };
    assert!(rt; underlay.own() == wanted);
}

/// The MAC address 02-00-00-00-BB and this octet.
fn exception(last: u8) -> Mac {
    Mac([0x02, 0, 0, 0, 0xBB, last])
}

/// Puts an exception where there is none.
fn put_hop(hops: &mut Hops, addr: Addr, last: u8) -> Result<(), AllocError> {
    if hops.get(addr).is_some() {
        return Ok(());
    }
    hops.insert(addr, exception(last))
}

/// Puts five exceptions.
fn put_hops(hops: &mut Hops) -> Result<(), AllocError> {
    put_hop(hops, host6(9), 1)?;
    put_hop(hops, host4(7), 2)?;
    put_hop(hops, host4(3), 3)?;
    put_hop(hops, host4(5), 4)?;
    put_hop(hops, host6(4), 5)
}

/// Whether each of them is the next hop of its address.
fn has_exceptions(underlay: &Underlay) -> bool {
    underlay.hop_to(host6(9)) == exception(1)
        && underlay.hop_to(host4(7)) == exception(2)
        && underlay.hop_to(host4(3)) == exception(3)
        && underlay.hop_to(host4(5)) == exception(4)
        && underlay.hop_to(host6(4)) == exception(5)
}

/// Whether groups have the MAC addresses that are made from theirs (RFC 1112, 6.4; RFC 2464, 7).
fn has_groups(underlay: &Underlay) -> bool {
    let group4 = Addr::V4([239, 1, 1, 1]);
    let group6 = Addr::V6([0xFF, 0x05, 0, 0, 0, 0, 0, 0, 0, 0, 0, 0, 0, 1, 0, 3]);
    underlay.hop_to(group4) == Mac([0x01, 0x00, 0x5E, 0x01, 0x01, 0x01])
        && underlay.hop_to(group6) == Mac([0x33, 0x33, 0x00, 0x01, 0x00, 0x03])
}

#[test]
fn a_group_an_exception_and_others_have_their_next_hops(rt: HostRuntime) -> Result<(), Fail> {
    let mut underlay = underlay(rt.alloc(), 1);
    put_hops(&mut underlay.hops)?;
    assert!(rt; underlay.hops.len() == 5);
    assert!(rt; has_exceptions(&underlay));
    assert!(rt; underlay.hop_to(host4(4)) == NEXT_HOP);
    assert!(rt; underlay.hop_to(host6(5)) == NEXT_HOP);
    assert!(rt; has_groups(&underlay));
    Ok(())
}

fn vxlan_5000() -> SegmentTunnel {
    tunnel(Tunnel::Vxlan, [0x00, 0x13, 0x88])
}

fn geneve_5000() -> SegmentTunnel {
    tunnel(Tunnel::Geneve, [0x00, 0x13, 0x88])
}

/// A rule for a segment with one tunnel and no flood list.
fn rule(vid: Vid, tunnel: SegmentTunnel) -> TunnelRule
    ensures vid { result.vid ≡ vid }
    ensures tunnels { result.tunnels ≡ tunnel ∷ [] }
{
    TunnelRule {
        vid,
        tunnels: Tunnels::one(tunnel),
        flood: FloodList::new(),
        peers: PeerRule::Any,
        tags: TagRule::Drop,
    }
}

/// Adds a segment with one tunnel, where neither its VID nor its kind and VNI are there and the limits leave room; whether
/// it did.
fn add(under: &mut Overlay, vid: Vid, tunnel: SegmentTunnel) -> bool {
    let most = usize::from(under.settings().limits.segments);
    if under.segment_count() >= most || under.has(vid) || under.taken(tunnel.kind, tunnel.vni) {
        return false;
    }
    under.add_segment(rule(vid, tunnel));
    true
}

fn vid(number: u16) -> Result<Vid, Fail> {
    Ok(Vid::new(number).ok_or("a VID")?)
}

/// Adds two segments, and what neither VID nor tunnel is free for; whether each is answered so.
fn adds_two(under: &mut Overlay, ten: Vid, twenty: Vid) -> bool {
    add(under, ten, vxlan_5000())
        && !add(under, twenty, vxlan_5000())
        && !add(under, ten, geneve_5000())
        && add(under, twenty, geneve_5000())
}

/// Whether VXLAN 5000 is VID 10's, and Geneve 5000 VID 20's, and VXLAN 5001 nobody's.
fn finds_by_tunnel(under: &Overlay, ten: Vid, twenty: Vid) -> bool {
    let vni = [0x00, 0x13, 0x88];
    is_found(under, Tunnel::Vxlan, vni, Some(ten))
        && is_found(under, Tunnel::Geneve, vni, Some(twenty))
        && is_found(under, Tunnel::Vxlan, [0x00, 0x13, 0x89], None)
}

/// Whether the tunnel with the VNI that these octets spell is this segment's, and taken; where there is none, not taken.
fn is_found(under: &Overlay, kind: Tunnel, vni: [u8; 3], wanted: Option<Vid>) -> bool {
    let vni = Vni::from_octets(vni);
    let found = match under.segment_by(kind, vni) {
        Some((vid, _)) => Some(vid),
        None => None,
    };
    found == wanted && under.taken(kind, vni) == wanted.is_some()
}

/// Whether VID 10 has a tunnel over VXLAN, VID 20 one over Geneve, and no other is there.
fn finds_by_vid(under: &Overlay, ten: Vid, twenty: Vid, thirty: Vid) -> bool {
    under.tunnel_of(ten, Tunnel::Vxlan) == Some(vxlan_5000())
        && under.tunnel_of(ten, Tunnel::Geneve).is_none()
        && under.tunnel_of(twenty, Tunnel::Geneve) == Some(geneve_5000())
        && under.tunnel_of(thirty, Tunnel::Vxlan).is_none()
}

/// Removes a segment, where it is there, and whether it was there before and not behind.
fn removes(under: &mut Overlay, vid: Vid) -> bool {
    if !under.has(vid) {
        return false;
    }
    under.remove_segment(vid);
    !under.has(vid)
}

#[test]
fn a_segment_is_found_by_its_vid_and_by_its_tunnel(rt: HostRuntime) -> Result<(), Fail> {
    let (ten, twenty, thirty) = (vid(10)?, vid(20)?, vid(30)?);
    let mut under = Overlay::open(rt.alloc(), underlay(rt.alloc(), 1), Vec::new(rt.alloc()))?;
    assert!(rt; adds_two(&mut under, ten, twenty));
    assert!(rt; under.has(ten) && under.has(twenty) && !under.has(thirty));
    assert!(rt; finds_by_tunnel(&under, ten, twenty));
    assert!(rt; finds_by_vid(&under, ten, twenty, thirty));
    assert!(rt; removes(&mut under, ten));
    assert!(rt; !under.taken(Tunnel::Vxlan, vxlan_5000().vni));
    assert!(rt; under.taken(Tunnel::Geneve, geneve_5000().vni));
    Ok(())
}

/// Adds two segments over VXLAN; whether both were.
fn adds_two_over_vxlan(under: &mut Overlay, ten: Vid, twenty: Vid) -> bool {
    add(under, ten, tunnel(Tunnel::Vxlan, [0, 0, 1]))
        && add(under, twenty, tunnel(Tunnel::Vxlan, [0, 0, 2]))
}

/// Whether an address that is added to a segment's flood list is answered so.
fn is_added(under: &mut Overlay, vid: Vid, addr: Addr, wanted: Result<(), FloodFault>) -> bool {
    under.has(vid) && under.add_flood(vid, Tunnel::Vxlan, addr) == wanted
}

/// Whether an address that is removed from it is.
fn is_removed(under: &mut Overlay, vid: Vid, addr: Addr, wanted: Result<(), NotThere>) -> bool {
    under.has(vid) && under.remove_flood(vid, Tunnel::Vxlan, addr) == wanted
}

/// Whether a segment's flood list has so many targets.
fn has_targets(under: &Overlay, vid: Vid, wanted: usize) -> bool {
    under.has(vid)
        && under.flood(vid).targets().len() == wanted
        && under.segment(vid).flood.targets().len() == wanted
}

#[test]
fn a_flood_list_changes_alone(rt: HostRuntime) -> Result<(), Fail> {
    let (ten, twenty) = (vid(10)?, vid(20)?);
    let mut under = Overlay::open(rt.alloc(), underlay(rt.alloc(), 1), Vec::new(rt.alloc()))?;
    assert!(rt; adds_two_over_vxlan(&mut under, ten, twenty));
    assert!(rt; is_added(&mut under, ten, host4(2), Ok(())));
    let again = Err(FloodFault::AlreadyThere);
    assert!(rt; is_added(&mut under, ten, host4(2), again));
    let own = Err(FloodFault::OwnAddress);
    assert!(rt; is_added(&mut under, ten, host4(1), own));
    assert!(rt; has_targets(&under, ten, 1));
    assert!(rt; has_targets(&under, twenty, 0));
    assert!(rt; is_removed(&mut under, ten, host4(2), Ok(())));
    assert!(rt; is_removed(&mut under, ten, host4(2), Err(NotThere)));
    Ok(())
}

#[test]
fn two_rules_tell_two_segments(rt: HostRuntime) -> Result<(), Fail> {
    let ten = Vid::new(10).ok_or("10 is a VID")?;
    let twenty = Vid::new(20).ok_or("20 is a VID")?;
    let rules = vec![in rt.alloc();
        rule(ten, tunnel(Tunnel::Vxlan, [0x00, 0x13, 0x88])),
        rule(twenty, tunnel(Tunnel::Geneve, [0x00, 0x13, 0x88])),
    ]?;
    let under = Overlay::open(rt.alloc(), underlay(rt.alloc(), 1), rules)?;
    assert!(rt; under.tunnel_of(ten, Tunnel::Vxlan) == Some(vxlan_5000()));
    assert!(rt; under.tunnel_of(twenty, Tunnel::Geneve) == Some(geneve_5000()));
    Ok(())
}

/// Whether what the endpoint is told is what stands in these settings.
fn has_settings(under: &Overlay) -> bool {
    under.settings().mtu == 1550
        && under.own().ip4 == Some([192, 0, 2, 1])
        && under.kind_at(6081) == Some(Tunnel::Geneve)
        && under.zero6()
        && under.known().pairs().len() == 0
}

#[test]
fn the_settings_stay(rt: HostRuntime) -> Result<(), Fail> {
    let under = Overlay::open(rt.alloc(), underlay(rt.alloc(), 1), Vec::new(rt.alloc()))?;
    assert!(rt; has_settings(&under));
    Ok(())
}

#[test]
fn a_segment_has_one_or_two_tunnels(rt: HostRuntime) {
    let vxlan = tunnel(Tunnel::Vxlan, [0, 0, 1]);
    let geneve = tunnel(Tunnel::Geneve, [0, 0, 2]);
    let one = Tunnels::one(vxlan);
    assert!(rt; one.first() == vxlan && !one.are_two());
    assert!(rt; one.of(Tunnel::Geneve).is_none());
    let two = Tunnels::two(geneve, vxlan);
    assert!(rt; two.first() == geneve && two.are_two());
    assert!(rt; two.of(Tunnel::Vxlan) == Some(vxlan));
}
