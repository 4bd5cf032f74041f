//! Which segment a frame enters at a port (IEEE 802.1Q, 6.9 and 8.6.2).
ghost use Rattle.std.specs.Prelude.{◌≡◌, ◌≤◌, ◌<◌, length, take, is_none, IfSome};
ghost use Rattle.overlay.specs.Octets.{part};
ghost use Rattle.overlay.specs.Frame.{first};
ghost use Rattle.wire.specs.First.{unless};
ghost use Rattle.overlay.specs.Ingress.{enters, vid_reasons, segment_vid, is_cut, tag_vid, frame_in};
ghost use Rattle.overlay.specs.Ports.{port_at};

use crate::ports::PortSet;
use wire::ether::{BridgeFrame, EtherView, Reason, Refused, Tagging, Vid};

/// The reserved VID (IEEE 802.1Q, 9.6).
const RESERVED_VID: u16 = 4095;

/// The segment that a frame of these octets enters at a port, and the frame without its outermost tag; or the first
/// reason, of 3 to 11, why it enters none. Its parts are slices of the octets. The port is 1 to [`PortSet::ports`].
///
/// A frame with VID 0 in its tag takes the port's VID and keeps its priority; one without a tag takes the port's VID
/// and priority 0. At every port a frame enters only segments that the port is a member of (ingress filtering).
#[inline(always)]
pub fn classify<'a>(
    ports: &PortSet,
    port: u8,
    octets: &'a [u8],
) -> Result<(Vid, BridgeFrame<'a>), Refused>
    requires low { 1 ≤ port }
    requires high { port ≤ length ports.now.ports }
    ensures { result ≡ enters ports.now port octets.now }
{
    let Ok(view) = EtherView::read(octets) else {
        return Err(Refused::nowhere(Reason::Runt));
    };
    if !ports.is_up(port) {
        return Err(Refused::nowhere(Reason::PortDown));
    }
    if view.src().is_group() {
        return Err(Refused::nowhere(Reason::BadSource));
    }
    if view.dst().is_reserved() {
        return Err(Refused::nowhere(Reason::Reserved));
    }
    let Some(rest) = behind_tag(&view) else {
        return Err(Refused::nowhere(Reason::CutTag));
    };
    let vid = segment_of(ports, port, rest.vid)?;
    Ok((vid, frame_of(&view, rest.pcp, rest.dei, rest.body)))
}

/// What the tag of a frame says, all 0 where it has none, and what stands behind it.
#[derive(Clone, Copy)]
struct Rest<'a> {
    vid: u16,
    pcp: u8,
    dei: bool,
    body: &'a [u8],
}

/// What stands behind the addresses of a frame, its tag taken off. None: the tag is cut.
fn behind_tag<'a>(view: &EtherView<'a>) -> Option<Rest<'a>>
    ensures cut { is_none result ≡ is_cut view.now }
    ensures vid { IfSome result (λ rest. rest.vid ≡ tag_vid view.now) }
    ensures bits { IfSome result (λ rest. rest.vid < 4096) }
    ensures frame { let src = part 6 6 view.now in
        IfSome result (λ rest. record { dst = take 6 view.now; src = src; pcp = rest.pcp; dei = rest.dei; body = rest.body.now }
        ≡ frame_in view.now) }
    ensures pcp { IfSome result (λ rest. rest.pcp < 8) }
    ensures long { IfSome result (λ rest. 2 ≤ length rest.body.now) }
{
    match view.split_tag() {
        Tagging::Plain(body) => Some(Rest {
            vid: 0,
            pcp: 0,
            dei: false,
            body,
        }),
        Tagging::Tagged(tci, body) => Some(Rest {
            vid: tci.vid(),
            pcp: tci.pcp(),
            dei: tci.dei(),
            body,
        }),
        Tagging::Cut => None,
    }
}

/// The segment of a frame with this VID in its tag, 0 where it has none.
#[inline(always)]
fn segment_of(ports: &PortSet, port: u8, tag_vid: u16) -> Result<Vid, Refused>
    requires low { 1 ≤ port }
    requires high { port ≤ length ports.now.ports }
    requires bits { tag_vid < 4096 }
    ensures { let pvid = (port_at ports.now port).pvid in
        result ≡ unless (first (vid_reasons ports.now port tag_vid)) (Ok (segment_vid pvid tag_vid)) }
{
    if tag_vid == RESERVED_VID {
        return Err(Refused::nowhere(Reason::BadVid));
    }
    let rule = ports.rule(port);
    if !rule.accept.accepts(tag_vid) {
        return Err(Refused::nowhere(Reason::FrameType));
    }
    let vid = Vid::new(tag_vid).unwrap_or(rule.pvid);
    if !ports.has(vid) {
        return Err(Refused::nowhere(Reason::NoSegment));
    }
    if ports.egress(vid, port).is_none() {
        return Err(Refused::within(vid, Reason::NotMember));
    }
    Ok(vid)
}

/// The frame with these parts, and the addresses of the view.
fn frame_of<'a>(view: &EtherView<'a>, pcp: u8, dei: bool, body: &'a [u8]) -> BridgeFrame<'a>
    requires pcp { pcp < 8 }
    requires body { 2 ≤ length body.now }
    ensures { let src = part 6 6 view.now in
        result ≡ record { dst = take 6 view.now; src = src; pcp = pcp; dei = dei; body = body.now } }
{
    BridgeFrame {
        pcp,
        dei,
        addresses: view.addresses(),
        body,
    }
}
