//! What is sent of a frame at an outlet.
ghost use Rattle.std.specs.Prelude.{◌≡◌, ◌≤◌, ◌++◌, [], Ok, Some, IsSome, IsTrue, unwrap_or};
ghost use Rattle.overlay.specs.Ports.{egress_at};
ghost use Rattle.filter_db.specs.declared.place.Place.TheVariants.{Local, Remote};
ghost use Rattle.encapsulate.specs.Remote.{sizes, text_behind};
ghost use Rattle.endpoint_core.specs.Held.{settings_of};
ghost use Rattle.endpoint_core.specs.Settings.{segment_at};
ghost use Rattle.endpoint_core.specs.StateStep.{can_leave};
ghost use Rattle.endpoint_core.specs.Counts.{number_sent};
ghost use Rattle.endpoint_core.specs.Step.{sent_at};

use crate::arrival::Arrival;
use crate::state::EndpointState;
use encapsulate::{Head, local_size, local_tag, packet_size, put_head, unsent};
use filter_db::Place;
use overlay::ports::Egress;
use wire::ether::{BridgeFrame, Reason, Vid};
use wire::ip_udp::{Addr, Tunnel};

/// How many octets are sent of a frame of a segment at a place where it can leave, or why nothing is. No head is made.
#[tactic(auto, unfolding(crate::specs::Arrival::emitted))]
pub(crate) fn size_in(state: &EndpointState, came: &Arrival, place: Place) -> Result<usize, Reason>
    requires { IsTrue (can_leave (settings_of state.now) came.now.vid place) }
    ensures { result ≡ sizes (sent_at (settings_of state.now) came.now.vid came.now.frame place).sent }
{
    match place {
        Place::Local(port) => {
            let egress = egress_at(state, came.vid, port);
            Ok(local_size(egress, &came.frame))
        }
        Place::Remote(kind, addr) => {
            packet_size(state.under(), came.vid, kind, addr, &came.frame)
        }
    }
}

/// The tag that a frame leaves with at a local port of its segment, if it leaves with one.
#[inline(always)]
#[tactic(auto, unfolding(crate::specs::Arrival::emitted))]
pub(crate) fn tag_in(
    state: &EndpointState,
    vid: Vid,
    frame: &BridgeFrame,
    port: u8,
) -> Option<[u8; 4]>
    requires { IsTrue (can_leave (settings_of state.now) vid (Local port)) }
    ensures { let f = frame.now in
        Ok ((f.dst ++ f.src) ++ (unwrap_or result [] ++ f.body)) ≡ (sent_at (settings_of state.now) vid f (Local port)).sent }
{
    let egress = egress_at(state, vid, port);
    local_tag(vid, egress, frame)
}

/// Writes the head of the packet that a frame of a segment is sent in to a remote endpoint, in the tunnel of a kind, over a head,
/// or tells why none is.
#[inline(always)]
#[tactic(auto, unfolding(crate::specs::Arrival::emitted))]
pub(crate) fn put_head_in(
    state: &EndpointState,
    came: &Arrival,
    kind: Tunnel,
    addr: Addr,
    head: &mut Head,
) -> Result<(), Reason>
    requires { IsTrue (can_leave (settings_of state.now) came.now.vid (Remote kind addr)) }
    ensures { let f = came.now.frame in
        text_behind head.new.items f result ≡ (sent_at (settings_of state.now) came.now.vid f (Remote kind addr)).sent }
{
    let under = state.under();
    let sums = came.sums();
    put_head(under, came.vid, kind, addr, &came.frame, &sums, head)
}

/// How the frames of a segment leave at a local port where they can.
#[inline(always)]
pub(crate) fn egress_at(state: &EndpointState, vid: Vid, port: u8) -> Egress
    requires { IsTrue (can_leave (settings_of state.now) vid (Local port)) }
    ensures { Some result ≡ egress_at (settings_of state.now).ports vid port }
{
    state.ports().egress(vid, port).unwrap()
}

/// The number under which what is sent of a frame at a place is counted.
#[tactic(auto, unfolding(crate::specs::Arrival::emitted))]
pub(crate) fn number_at(state: &EndpointState, vid: Vid, frame: &BridgeFrame, place: Place) -> u8
    requires { IsSome (segment_at (settings_of state.now) vid) }
    ensures value { result ≡ number_sent (sent_at (settings_of state.now) vid frame.now place).sent }
    ensures in_range { result ≤ 40 }
{
    match place {
        Place::Local(_) => 0,
        Place::Remote(_, addr) => match unsent(state.under(), vid, addr, frame) {
            Some(reason) => reason.number(),
            None => 0,
        },
    }
}
