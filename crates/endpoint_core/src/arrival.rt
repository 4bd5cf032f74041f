//! How a frame comes to the bridge of a segment.
//!
//! A [`Arrival`] has its frame first, so that no unused octets lie between what is copied together.
ghost use Rattle.std.specs.Prelude.{◌≡◌, ◌≤◌, ℕ, IfOk, length, true};
ghost use Rattle.std.specs.List.{list_all};
ghost use Rattle.filter_db.specs.declared.place.Place.TheVariants.{Local};
ghost use Rattle.overlay.specs.Ports.{has_segment as has_members};
ghost use Rattle.overlay.specs.Overlay.{has_segment, flood_at};
ghost use Rattle.endpoint_core.specs.Sound.{reaches, is_reached};
ghost use Rattle.encapsulate.specs.Sums.{AreSums};
ghost use Rattle.endpoint_core.specs.Among.{segment_of};
ghost use Rattle.endpoint_core.specs.Arrival.{came_at, came_by};

use crate::Forwarding;
use decapsulate::unwrap;
use encapsulate::{FrameSums, begins_tag};
use filter_db::Place;
use overlay::ports::{PortSet, classify};
use overlay::underlay::{Overlay, Underlay};
use std::marker::Model;
use wire::ether::{BridgeFrame, Reason, Refused, Vid};
use wire::ip_udp::Addr;

/// The most octets of a local frame.
const LONGEST_FRAME: usize = 65_535;

/// The most octets of an outer packet: the longest that is sent.
const LONGEST_PACKET: usize = 65_549;

/// A frame in a segment, and the place that it came from.
#[derive(Debug, Drop)]
pub struct Arrival<'a> {
    // the frame first: nothing stands unused before it then, and it is made where it lies
    pub(crate) frame: BridgeFrame<'a>,
    pub(crate) vid: Vid,
    pub(crate) from: Place,
    /// What all packets with the frame share, where it goes to remote endpoints.
    sums: Option<FrameSums>,
}

impl<'a> Model for Arrival<'a> {
    ghost use Rattle.std.specs.Prelude.{IfSome};
    ghost use Rattle.encapsulate.specs.Sums.{AreSums};
    ghost use Rattle.endpoint_core.specs.Arrival.{Arrival};

    ghost Value = { Arrival };

    ghost view = { λ c. record { vid = c.vid; from = c.from; frame = c.frame } };

    ghost invariant = { λ c. IfSome c.sums (AreSums c.frame) };
}

impl<'a> Arrival<'a> {
    /// A frame in a segment.
    fn at(vid: Vid, from: Place, frame: BridgeFrame<'a>) -> Arrival<'a>
        ensures { result ≡ record { vid = vid; from = from; frame = frame.entry } }
    {
        Arrival {
            vid,
            from,
            frame,
            sums: None,
        }
    }

    /// The VID of the segment.
    pub fn segment(&self) -> Vid
        ensures { result ≡ self.now.vid }
    {
        self.vid
    }

    /// The place that it came from.
    pub fn place(&self) -> Place
        ensures { result ≡ self.now.from }
    {
        self.from
    }

    /// The frame.
    pub fn frame(&self) -> &BridgeFrame<'a>
        ensures { result.now ≡ self.now.frame }
    {
        &self.frame
    }

    /// Computes what all packets with the frame share, where a place that it goes to is a remote endpoint.
    pub(crate) fn sum_for(&mut self, places: &[Place], underlay: &Underlay)
        ensures { self.new ≡ self.old }
    {
        if has_remote(places) {
            self.sums = Some(FrameSums::of(&self.frame, has_checksum(places, underlay)));
        }
    }

    /// What all packets with the frame share.
    pub(crate) fn sums(&self) -> FrameSums
        ensures { AreSums self.now.frame result }
    {
        match self.sums {
            Some(sums) => sums,
            None => FrameSums::of(&self.frame, false),
        }
    }
}

/// The segment of a frame that came to one, or that was refused in one.
#[inline]
pub fn segment_of(came: &Result<Arrival, Refused>) -> Option<Vid>
    ensures { result ≡ segment_of came.now }
{
    match came {
        Ok(came) => Some(came.vid),
        Err(refused) => refused.segment,
    }
}

/// Whether the last place is a remote endpoint: those stand behind the local ports.
fn has_remote(places: &[Place]) -> bool {
    match places.last() {
        Some(Place::Remote(..)) => true,
        _ => false,
    }
}

/// Whether a place is a remote endpoint to which packets have a checksum.
fn has_checksum(places: &[Place], underlay: &Underlay) -> bool {
    for at in 0..places.len() {
        if let Place::Remote(_, addr) = places[at] {
            if computes_sum(addr, underlay) {
                return true;
            }
        }
    }
    false
}

/// Whether packets to an address have a checksum.
fn computes_sum(addr: Addr, underlay: &Underlay) -> bool {
    match addr {
        Addr::V4(_) => underlay.sum4,
        Addr::V6(_) => underlay.sum6,
    }
}

/// Sets a forwarding to the frame that these octets at a local port are, in its segment; or to the first reason, of 1 to 11 and 34,
/// why it comes to none. It is written where it lies: a result in its place would be put together and copied.
#[tactic(auto, unfolding(crate::specs::Arrival::came_at))]
#[inline(always)]
pub(crate) fn come_at<'a>(
    ports: &PortSet,
    under: &Overlay,
    port: u8,
    original: u32,
    octets: &'a [u8],
    forwarding: &mut Forwarding<'a>,
)
    requires low { 1 ≤ port }
    requires high { port ≤ length ports.now.ports }
    ensures value { forwarding.new ≡ came_at ports.now under.now port original octets.now }
    ensures there { IfOk forwarding.new (λ x. has_members ports.now x.vid ≡ true) }
    ensures from { IfOk forwarding.new (λ x. x.from ≡ Local port) }
    ensures short { IfOk forwarding.new (λ x. length x.frame.body ≤ 65535) }
{
    if octets.len() > LONGEST_FRAME {
        *forwarding = Err(Refused::nowhere(Reason::TooLong));
        return;
    }
    if octets.len() < original as usize {
        *forwarding = Err(Refused::nowhere(Reason::Sliced));
        return;
    }
    match classify(ports, port, octets) {
        Ok(entered) => {
            let (vid, frame) = entered;
            if begins_tag(frame.body) && under.refuses_tags(vid) {
                *forwarding = Err(Refused::within(vid, Reason::InnerTag));
                return;
            }
            *forwarding = Ok(Arrival::at(vid, Place::Local(port), frame));
        }
        Err(refused) => *forwarding = Err(refused),
    }
}

/// Sets a forwarding to the frame that an outer packet brings, in its segment; or to the first reason, of 1 to 3, 5, 6 and 12 to
/// 34, why it brings none.
#[tactic(auto, unfolding(crate::specs::Arrival::came_by))]
pub(crate) fn come_by<'a>(
    under: &Overlay,
    original: u32,
    octets: &'a [u8],
    forwarding: &mut Forwarding<'a>,
)
    requires { (vid : ℕ) → list_all (λ r. reaches under.now vid r.tunnel r.addr) (flood_at under.now vid) ≡ true }
    ensures value { forwarding.new ≡ came_by under.now original octets.now }
    ensures there { IfOk forwarding.new (λ x. has_segment under.now x.vid ≡ true) }
    ensures reached { IfOk forwarding.new (λ x. is_reached under.now x.vid x.from ≡ true) }
    ensures short { IfOk forwarding.new (λ x. length x.frame.body ≤ 65549) }
{
    if octets.len() > LONGEST_PACKET {
        *forwarding = Err(Refused::nowhere(Reason::TooLong));
        return;
    }
    if octets.len() < original as usize {
        *forwarding = Err(Refused::nowhere(Reason::Sliced));
        return;
    }
    match unwrap(under, octets) {
        Ok(arrived) => {
            let (kind, addr) = arrived.from;
            *forwarding = Ok(Arrival::at(arrived.vid, Place::Remote(kind, addr), arrived.frame));
        }
        Err(refused) => *forwarding = Err(refused),
    }
}
