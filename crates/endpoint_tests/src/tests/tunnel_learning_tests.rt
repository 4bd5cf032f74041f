//! Frames among three ports and two remotes, over tables that are lists.
use crate::tests::calls::{PORT_1, PORT_2, PORT_3, VXLAN_2};
use crate::tests::checks::{check, check_at};
use crate::tests::ports::up_port;
use filter_db::{ListTables, Place, TableRule, Tables};
use overlay::flood::{FloodList, Own};
use overlay::ports::{MemberRule, PortList, PortSet};
use std::alloc::Global;
use std::process::Abort;
use std::test::Fail;
use tunnel_learning::{Bridge, Outlets, bridge_step_into};
use wire::ether::{BridgeFrame, EtherView, Mac, Reason, Vid};
use wire::ip_udp::{Addr, Tunnel};

const VXLAN_3: Place = Place::Remote(Tunnel::Vxlan, Addr::V4([192, 0, 2, 3]));

const GENEVE_3: Place = Place::Remote(Tunnel::Geneve, Addr::V4([192, 0, 2, 3]));

/// The last octet of the broadcast address.
const ALL: u8 = 0xFF;

fn vid() -> Result<Vid, Fail> {
    Ok(Vid::new(10).ok_or("10 is a VID")?)
}

/// Three ports that are up and untagged members of segment 10.
fn three_ports(alloc: Global) -> Result<PortSet, Fail> {
    let vid = vid()?;
    let port = up_port(vid);
    let members = MemberRule {
        vid,
        untagged: PortList::from_slice(&[1, 2, 3]),
        tagged: PortList::new(),
    };
    Ok(PortSet::open(alloc, &[port, port, port], &[members])?)
}

/// An empty table of segment 10: 256 entries, live for 300 seconds.
fn one_table(alloc: Global) -> Result<ListTables, Fail> {
    let rule = TableRule {
        vid: vid()?,
        limit: 256,
        ageing: 300,
    };
    Ok(ListTables::open(alloc, &[rule])?)
}

/// The address 02-00-00-00-00 and this octet, or the broadcast address.
fn mac(last: u8) -> [u8; 6] {
    if last == ALL {
        [ALL; 6]
    } else {
        [0x02, 0, 0, 0, 0, last]
    }
}

/// The octets of a frame to and from addresses by their last octets.
fn frame_of(dst: u8, src: u8) -> [u8; 14] {
    let [a, b, c, d, e, f] = mac(dst);
    let [g, h, i, j, k, l] = mac(src);
    [a, b, c, d, e, f, g, h, i, j, k, l, 0x08, 0x00]
}

/// A frame from a place, to and from addresses by their last octets, and where it goes, or why it doesn't.
type Arrival = (Place, u8, u8, Result<&'static [Place], Reason>);

/// What the bridge does with a frame that comes at a moment, its places in a list.
fn verdict(
    tables: &mut ListTables,
    bridge: &Bridge,
    now: u64,
    came: &Arrival,
    places: &mut Outlets,
) -> Option<Result<(), Reason>> {
    if !tables.has(bridge.vid) || now < tables.now() {
        return None;
    }
    let (from, dst, src, _goes) = *came;
    let octets = frame_of(dst, src);
    let Ok(view) = EtherView::read(&octets) else {
        return None;
    };
    let frame = BridgeFrame {
        pcp: 0,
        dei: false,
        addresses: view.addresses(),
        body: view.after_addresses(),
    };
    Some(bridge_step_into(tables, bridge, now, &from, &frame, places))
}

/// Whether a frame that comes at a moment goes where it should.
fn is_answered(tables: &mut ListTables, bridge: &Bridge, now: u64, came: &Arrival) -> bool {
    let mut places = Outlets::new();
    match (verdict(tables, bridge, now, came, &mut places), came.3) {
        (Some(Ok(())), Ok(wanted)) => places.as_slice() == wanted,
        (Some(Err(reason)), Err(wanted)) => reason == wanted,
        _ => false,
    }
}

/// Asks for where each of some frames goes, one a nanosecond from 1 on.
fn walk(rt: &impl Abort, tables: &mut ListTables, bridge: &Bridge, frames: &[Arrival]) {
    let mut now: u64 = 0;
    for (number, came) in frames.iter().enumerate() {
        now = now.saturating_add(1);
        check_at(rt, is_answered(tables, bridge, now, came), "frame", number);
    }
}

/// The same among three ports, and remotes of these groups, over an empty table.
fn walk_among(
    rt: &impl Abort,
    alloc: Global,
    (flood, groups): (&FloodList, [u8; 2]),
    frames: &[Arrival],
) -> Result<(), Fail> {
    let ports = three_ports(alloc)?;
    let bridge = Bridge {
        vid: vid()?,
        learning: true,
        groups,
        ports: &ports,
        flood,
    };
    let mut tables = one_table(alloc)?;
    walk(rt, &mut tables, &bridge, frames);
    Ok(())
}

const AMONG_PORTS: [Arrival; 4] = [
    (PORT_1, ALL, 1, Ok(&[PORT_2, PORT_3])),
    (PORT_2, 1, 2, Ok(&[PORT_1])),
    (PORT_1, 2, 1, Ok(&[PORT_2])),
    (PORT_2, 2, 2, Err(Reason::SamePlace)),
];

#[test]
fn four_frames_among_three_ports(rt: HostRuntime) -> Result<(), Fail> {
    walk_among(&rt, rt.alloc(), (&FloodList::new(), [0, 0]), &AMONG_PORTS)
}

/// A list of a VXLAN and a Geneve remote.
fn two_remotes() -> Result<FloodList, Fail> {
    let own = Own {
        ip4: Some([192, 0, 2, 1]),
        ip6: None,
    };
    let (second, third) = (Addr::V4([192, 0, 2, 2]), Addr::V4([192, 0, 2, 3]));
    let mut flood = FloodList::new();
    flood.add(Tunnel::Vxlan, second, &own, 16, &mut None)?;
    flood.add(Tunnel::Geneve, third, &own, 16, &mut None)?;
    Ok(flood)
}

const OF_ONE_GROUP: [Arrival; 6] = [
    (PORT_1, ALL, 1, Ok(&[PORT_2, PORT_3, VXLAN_2, GENEVE_3])),
    (VXLAN_2, ALL, 5, Ok(&[PORT_1, PORT_2, PORT_3])),
    (GENEVE_3, 5, 6, Err(Reason::Horizon)),
    (VXLAN_3, 5, 6, Err(Reason::Horizon)),
    (VXLAN_2, 5, 7, Err(Reason::SamePlace)),
    (PORT_1, 5, 1, Ok(&[VXLAN_2])),
];

const OF_TWO_GROUPS: [Arrival; 3] = [
    (VXLAN_2, ALL, 5, Ok(&[PORT_1, PORT_2, PORT_3, GENEVE_3])),
    (GENEVE_3, 5, 6, Ok(&[VXLAN_2])),
    (VXLAN_3, 5, 6, Err(Reason::Horizon)),
];

#[test]
fn remotes_of_one_group_and_of_two(rt: HostRuntime) -> Result<(), Fail> {
    let flood = two_remotes()?;
    walk_among(&rt, rt.alloc(), (&flood, [0, 0]), &OF_ONE_GROUP)?;
    walk_among(&rt, rt.alloc(), (&flood, [1, 2]), &OF_TWO_GROUPS)
}

/// Address 2 stands at port 2, which is down. A source is learned although its frame goes nowhere.
const PORTS_DOWN: [Arrival; 3] = [
    (PORT_1, ALL, 1, Err(Reason::NoOutlet)),
    (PORT_1, 2, 1, Err(Reason::Unreachable)),
    (VXLAN_2, 1, 3, Ok(&[PORT_1])),
];

/// Takes a port down; whether there is one.
fn take_down(ports: &mut PortSet, port: u8) -> bool {
    if port == 0 || port > ports.ports() {
        return false;
    }
    ports.set_up(port, false);
    true
}

/// Whether address 2 gets fixed at port 2.
fn fixes_2(tables: &mut ListTables, vid: Vid) -> bool {
    tables.has(vid) && tables.now() == 0 && tables.fix(vid, Mac(mac(2)), PORT_2, 0).is_ok()
}

#[test]
fn ports_that_are_down(rt: HostRuntime) -> Result<(), Fail> {
    let mut ports = three_ports(rt.alloc())?;
    let are_down = take_down(&mut ports, 2) && take_down(&mut ports, 3);
    check(&rt, are_down, "ports 2 and 3");
    let mut tables = one_table(rt.alloc())?;
    check(&rt, fixes_2(&mut tables, vid()?), "a fixed entry");
    let bridge = Bridge {
        vid: vid()?,
        learning: true,
        groups: [0, 0],
        ports: &ports,
        flood: &FloodList::new(),
    };
    walk(&rt, &mut tables, &bridge, &PORTS_DOWN);
    Ok(())
}
