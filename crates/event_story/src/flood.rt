//! Where a flood doesn't go.
ghost use Rattle.std.specs.Prelude.{◌≡◌, ◌++◌, map, OnOk};
ghost use Rattle.filter_db.specs.declared.place.Place.TheVariants.{Local};
ghost use Rattle.tunnel_learning.specs.Bridge.{config_of, place_of};
ghost use Rattle.event_story.specs.Bridge.{flooded_facts, left_among, left_facts, left_out, left_ports, ports_told, shut_fact};
ghost use Rattle.event_story.specs.Neighbours.{folded};

use crate::fact::Fact;
use crate::neighbours::put_closed;
use crate::refusal::put;
use filter_db::{Entry, Place};
use std::alloc::AllocError;
use tunnel_learning::Bridge;

/// The most ports of a bridge whose ports are told one by one.
const ONE_BY_ONE: u8 = 16;

/// Puts where a flood of a frame from a place doesn't go, and why, behind some facts, if the frame is flooded: to a group, or
/// to an address for which nothing stands. `AllocError`: there was no room for them.
pub(crate) fn put_flooded_facts(
    facts: &mut Vec<Fact>,
    bridge: &Bridge,
    from: Place,
    group: bool,
    stood: Option<Entry>,
) -> Result<(), AllocError>
    ensures { OnOk result (facts.new.items ≡ facts.old.items ++ flooded_facts (config_of bridge.now) from group stood) }
{
    if group || stood.is_none() {
        return put_left_facts(facts, bridge, from);
    }
    Ok(())
}

/// Puts where a flood doesn't go: ports, rising, and then remotes in the order of the flood list.
fn put_left_facts(facts: &mut Vec<Fact>, bridge: &Bridge, from: Place) -> Result<(), AllocError>
    ensures { OnOk result (facts.new.items ≡ facts.old.items ++ left_facts (config_of bridge.now) from) }
{
    put_left_ports(facts, bridge, from)?;
    put_left_remotes(facts, bridge, from)
}

/// Puts the ports where it doesn't go: one by one, or of a bridge of more than 16 ports those as one that follow each other
/// and are left out for the same cause.
fn put_left_ports(facts: &mut Vec<Fact>, bridge: &Bridge, from: Place) -> Result<(), AllocError>
    ensures { OnOk result (facts.new.items ≡ facts.old.items ++ ports_told (config_of bridge.now) from) }
{
    if bridge.ports.ports() > ONE_BY_ONE {
        return put_folded_ports(facts, bridge, from);
    }
    put_each_port(facts, bridge, from)
}

/// Puts the ports where it doesn't go, one by one.
fn put_each_port(facts: &mut Vec<Fact>, bridge: &Bridge, from: Place) -> Result<(), AllocError>
    ensures { OnOk result (facts.new.items ≡ facts.old.items ++ left_ports (config_of bridge.now) from) }
{
    for number in 0..bridge.ports.ports() {
        put(facts, left_out(bridge, from, Place::Local(number + 1)))?;
    }
    Ok(())
}

/// Puts the ports where it doesn't go, those as one that follow each other and are left out for the same cause.
fn put_folded_ports(facts: &mut Vec<Fact>, bridge: &Bridge, from: Place) -> Result<(), AllocError>
    ensures { OnOk result (facts.new.items ≡ facts.old.items ++ folded (left_ports (config_of bridge.now) from)) }
{
    let mut begun = None;
    for number in 0..bridge.ports.ports() {
        let next = left_out(bridge, from, Place::Local(number + 1));
        begun = put_closed(facts, begun, next)?;
    }
    put(facts, begun)
}

/// Puts the remotes where it doesn't go.
fn put_left_remotes(facts: &mut Vec<Fact>, bridge: &Bridge, from: Place) -> Result<(), AllocError>
    ensures { let c = config_of bridge.now in OnOk result (facts.new.items ≡ facts.old.items ++ left_among c from (map place_of c.flood)) }
{
    for target in bridge.flood.targets() {
        let to = Place::Remote(target.tunnel, target.addr);
        put(facts, left_out(bridge, from, to))?;
    }
    Ok(())
}

/// Why a flood of a frame from a place leaves another out, if it does.
fn left_out(bridge: &Bridge, from: Place, to: Place) -> Option<Fact>
    ensures { result ≡ left_out (config_of bridge.now) from to }
{
    if to.is_same(from) {
        return Some(Fact::Same { place: to });
    }
    if bridge.in_one_group(&from, &to) {
        return Some(Fact::Horizon { place: to });
    }
    shut_fact(bridge, to)
}

/// That a place is a port where no frame of the segment leaves.
fn shut_fact(bridge: &Bridge, to: Place) -> Option<Fact>
    ensures { result ≡ shut_fact (config_of bridge.now) to }
{
    match to {
        Place::Local(port) => shut_port(bridge, port),
        Place::Remote(..) => None,
    }
}

/// The same of a port: it is down, or no member.
fn shut_port(bridge: &Bridge, port: u8) -> Option<Fact>
    ensures { result ≡ shut_fact (config_of bridge.now) (Local port) }
{
    if !bridge.is_up(port) {
        return Some(Fact::PortsDown {
            first: port,
            last: port,
        });
    }
    match bridge.ports.egress(bridge.vid, port) {
        Some(_) => None,
        None => Some(Fact::NoMembers {
            first: port,
            last: port,
        }),
    }
}
