//! How a frame leaves at each of its outlets.
ghost use Rattle.std.specs.Prelude.{◌≡◌, ◌++◌, OnOk, map};
ghost use Rattle.std.specs.Option.{option_map};
ghost use Rattle.overlay.specs.Overlay.{tunnel_at};
ghost use Rattle.endpoint_core.specs.Held.{settings_of};
ghost use Rattle.endpoint_core.specs.Step.{sent_at};
ghost use Rattle.event_story.specs.Outlets.{port_fact, tunnel_fact, outlet_fact, outlet_facts};

use crate::fact::Fact;
use crate::refusal::put;
use encapsulate::{headers, unsent};
use endpoint_core::state::EndpointState;
use filter_db::Place;
use overlay::underlay::Overlay;
use std::alloc::AllocError;
use wire::ether::{BridgeFrame, Vid};
use wire::ip_udp::{Addr, Tunnel};

/// The octets of both MAC addresses.
const ADDRESSES: usize = 12;

/// Puts how a frame of a segment leaves at each outlet behind some facts. `AllocError`: there was no room for them.
pub(crate) fn put_outlet_facts(
    facts: &mut Vec<Fact>,
    state: &EndpointState,
    vid: Vid,
    frame: &BridgeFrame,
    places: &[Place],
) -> Result<(), AllocError>
    ensures { let S = settings_of state.now in
        OnOk result (facts.new.items
        ≡ facts.old.items ++ outlet_facts S vid frame.now (map (sent_at S vid frame.now) places.now)) }
{
    for place in places {
        put(facts, outlet_fact(state, vid, frame, *place))?;
    }
    Ok(())
}

/// How a frame of a segment leaves at a place; nothing where it can't leave there.
fn outlet_fact(state: &EndpointState, vid: Vid, frame: &BridgeFrame, place: Place) -> Option<Fact>
    ensures { result ≡ outlet_fact (settings_of state.now) vid frame.now place }
{
    match place {
        Place::Local(port) => port_fact(state, vid, port),
        Place::Remote(kind, addr) => tunnel_fact(state.under(), vid, frame, kind, addr),
    }
}

/// How frames of a segment leave at a local port.
fn port_fact(state: &EndpointState, vid: Vid, port: u8) -> Option<Fact>
    ensures { result ≡ port_fact (settings_of state.now).ports vid port }
{
    let ports = state.ports();
    if port == 0 || port > ports.ports() {
        return None;
    }
    Some(Fact::AtPort {
        port,
        egress: ports.egress(vid, port),
    })
}

/// How a frame leaves in a tunnel of its segment.
fn tunnel_fact(
    under: &Overlay,
    vid: Vid,
    frame: &BridgeFrame,
    kind: Tunnel,
    addr: Addr,
) -> Option<Fact>
    ensures { result ≡ option_map (tunnel_fact under.now vid frame.now addr) (tunnel_at under.now vid kind) }
{
    if !under.has(vid) {
        return None;
    }
    let tunnel = under.tunnel_of(vid, kind)?;
    Some(Fact::InTunnel {
        kind: tunnel.kind,
        addr,
        vni: tunnel.vni.get(),
        hop: under.settings().hop_to(addr),
        packet: ADDRESSES + frame.body.len() + usize::from(headers(addr)),
        mtu: under.settings().mtu,
        reason: unsent(under, vid, addr, frame),
    })
}
