//! 255 ports, of which eight are members of segment 10: on both sides of each 64, and the last.
use crate::tests::calls::VXLAN_2;
use crate::tests::checks::{check, check_at};
use crate::tests::ports::up_port;
use filter_db::Place;
use overlay::flood::FloodList;
use overlay::ports::{Egress, MemberRule, PortList, PortSet};
use std::alloc::Global;
use std::process::Abort;
use std::test::Fail;
use tunnel_learning::{Bridge, Outlets, send_toward};
use wire::ether::Vid;

/// A member port, and how frames leave there.
type Member = (u8, Egress);

const OF_10: [Member; 8] = [
    (1, Egress::Untagged),
    (16, Egress::Tagged),
    (17, Egress::Untagged),
    (63, Egress::Untagged),
    (64, Egress::Tagged),
    (65, Egress::Untagged),
    (128, Egress::Untagged),
    (255, Egress::Tagged),
];

fn vid(number: u16) -> Result<Vid, Fail> {
    Ok(Vid::new(number).ok_or("a VID")?)
}

/// 255 ports that are up, and segment 10.
fn all_ports(alloc: Global) -> Result<PortSet, Fail> {
    let vid = vid(10)?;
    let port = up_port(vid);
    let members = MemberRule {
        vid,
        untagged: PortList::from_slice(&[1, 17, 63, 65, 128]),
        tagged: PortList::from_slice(&[16, 64, 255]),
    };
    Ok(PortSet::open(alloc, &[port; 255], &[members])?)
}

/// How frames leave at a port.
fn egress_of(members: &[Member], port: u8) -> Option<Egress> {
    for (number, egress) in members {
        if *number == port {
            return Some(*egress);
        }
    }
    None
}

/// Whether frames of a segment leave at these ports and at no other.
fn leave_at(ports: &PortSet, vid: Vid, members: &[Member]) -> bool {
    for number in 0..ports.ports() {
        let port = number + 1;
        if ports.egress(vid, port) != egress_of(members, port) {
            return false;
        }
    }
    true
}

/// Makes a port a member of a segment, or no member; whether both are there.
fn set(ports: &mut PortSet, vid: Vid, port: u8, egress: Option<Egress>) -> bool {
    if port == 0 || port > ports.ports() || !ports.has(vid) {
        return false;
    }
    ports.set_member(vid, port, egress);
    true
}

/// Adds a segment; whether there was none.
fn add(ports: &mut PortSet, vid: Vid) -> bool {
    if ports.has(vid) {
        return false;
    }
    ports.add_vid(vid);
    true
}

/// Removes a segment; whether there was one.
fn remove(ports: &mut PortSet, vid: Vid) -> bool {
    if !ports.has(vid) {
        return false;
    }
    ports.remove_vid(vid);
    true
}

/// Ports 255 and 64 leave segment 10, and 255 comes to 20, which goes and comes again without it.
fn come_and_go(rt: &impl Abort, ports: &mut PortSet, ten: Vid, twenty: Vid) {
    check(rt, leave_at(ports, ten, &OF_10), "the members of 10");
    check(rt, add(ports, twenty), "segment 20");
    check(rt, leave_at(ports, twenty, &[]), "a new segment");
    check(rt, set(ports, twenty, 255, Some(Egress::Untagged)), "255");
    let last = [(255, Egress::Untagged)];
    check(rt, leave_at(ports, twenty, &last), "port 255 of 20");
    check(rt, leave_at(ports, ten, &OF_10), "10 as before");
    check(rt, set(ports, ten, 255, None), "255 of 10");
    check(rt, leave_at(ports, ten, &OF_10[..7]), "10 without 255");
    check(rt, leave_at(ports, twenty, &last), "20 as before");
    check(rt, remove(ports, twenty), "segment 20 goes");
    check(rt, add(ports, twenty), "segment 20 again");
    check(rt, leave_at(ports, twenty, &[]), "20 without 255");
}

#[test]
fn members_come_and_go(rt: HostRuntime) -> Result<(), Fail> {
    let (ten, twenty) = (vid(10)?, vid(20)?);
    let mut ports = all_ports(rt.alloc())?;
    come_and_go(&rt, &mut ports, ten, twenty);
    Ok(())
}

/// A flood from a place, and the ports that it goes to.
type Flood = (Place, &'static [u8]);

const FLOODS: [Flood; 5] = [
    (Place::Local(1), &[16, 17, 63, 64, 65, 128, 255]),
    (Place::Local(64), &[1, 16, 17, 63, 65, 128, 255]),
    (Place::Local(255), &[1, 16, 17, 63, 64, 65, 128]),
    (Place::Local(2), &[1, 16, 17, 63, 64, 65, 128, 255]),
    (VXLAN_2, &[1, 16, 17, 63, 64, 65, 128, 255]),
];

/// The same where port 255 is down, and port 65 no member.
const FEWER: [Flood; 3] = [
    (Place::Local(1), &[16, 17, 63, 64, 128]),
    (Place::Local(64), &[1, 16, 17, 63, 128]),
    (VXLAN_2, &[1, 16, 17, 63, 64, 128]),
];

/// Whether places are these local ports.
fn are_ports(places: &[Place], numbers: &[u8]) -> bool {
    if places.len() != numbers.len() {
        return false;
    }
    for (place, number) in places.iter().zip(numbers) {
        if *place != Place::Local(*number) {
            return false;
        }
    }
    true
}

/// Whether a frame whose destination isn't known goes to these ports.
fn floods_to(ports: &PortSet, vid: Vid, (from, wanted): &Flood) -> bool {
    let bridge = Bridge {
        vid,
        learning: true,
        groups: [0, 0],
        ports,
        flood: &FloodList::new(),
    };
    let mut places = Outlets::new();
    send_toward(&bridge, from, None, &mut places).is_ok() && are_ports(places.as_slice(), wanted)
}

/// Asks for where each of some floods goes.
fn flood(rt: &impl Abort, ports: &PortSet, vid: Vid, floods: &[Flood]) {
    for (number, told) in floods.iter().enumerate() {
        check_at(rt, floods_to(ports, vid, told), "flood", number);
    }
}

/// Takes port 255 down, and 65 out of a segment; whether they are there.
fn take_away(ports: &mut PortSet, vid: Vid) -> bool {
    if ports.ports() < 255 {
        return false;
    }
    ports.set_up(255, false);
    set(ports, vid, 65, None)
}

#[test]
fn a_flood_reaches_each_member_and_no_other(rt: HostRuntime) -> Result<(), Fail> {
    let ten = vid(10)?;
    let mut ports = all_ports(rt.alloc())?;
    flood(&rt, &ports, ten, &FLOODS);
    check(&rt, take_away(&mut ports, ten), "ports 65 and 255");
    flood(&rt, &ports, ten, &FEWER);
    Ok(())
}
