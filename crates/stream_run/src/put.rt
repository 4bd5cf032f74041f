//! What comes of one event, put to the outputs of a run.
ghost use Rattle.std.specs.Prelude.{◌≡◌, ◌≤◌, ◌<◌, ◌+◌, ◌++◌, Option, Some, None, [], Bool};
ghost use Rattle.std.specs.Prelude.{IsSome, IsTrue, OnOk, length, map, slice_index_or, unwrap_or};
ghost use Rattle.std.specs.List.{list_all};
ghost use Rattle.pcap.specs.Record.{last_moment, longest};
ghost use Rattle.pcap.specs.Written.{whole_frame, written_record};
ghost use Rattle.filter_db.specs.declared.place.Place.TheVariants.{Local, Remote};
ghost use Rattle.endpoint_core.specs.Settings.{segment_at};
ghost use Rattle.endpoint_core.specs.StateStep.{can_leave};
ghost use Rattle.endpoint_core.specs.Forwarding.{CanLeave, IsShortFrame, IsThere, decision_of};
ghost use Rattle.endpoint_core.specs.Decision.{Sent};
ghost use Rattle.endpoint_core.specs.Kept.{state_of};
ghost use Rattle.endpoint_core.specs.Step.{Decided, has_two_tunnels, sent_at};
ghost use Rattle.endpoint_core.specs.Text.{outcome_text, outcomes_text};
ghost use Rattle.decision_lines.specs.Outcomes.{gap};
ghost use Rattle.capture_run.specs.Outputs.{Outputs as Texts};
ghost use Rattle.capture_run.specs.Writing.{put_at, with_all_sent, with_input, with_line, with_sent};
ghost use Rattle.stream_run.specs.Amidst.{PutsInOrder, SendsInOrder};
ghost use Rattle.stream_run.specs.Lines.{LineLeads};
ghost use Rattle.stream_run.specs.Stage.{Drains, Lead, StandAt};

use crate::fault::Target;
use decision_lines::{Line, Scratch};
use encapsulate::Head;
use endpoint_core::{Arrival, Endpoint, Forwarding};
use filter_db::Place;
use pcap::stream::Output;
use timeline::{Event, RunOutputs};
use wire::ip_udp::{Addr, Tunnel};

/// A frame that leaves: the endpoint that took it, and when.
#[derive(Clone, Copy)]
struct Leaving<'a> {
    endpoint: &'a Endpoint,
    came: &'a Arrival<'a>,
    moment: u64,
}

/// A remote endpoint: of which kind the tunnel to it is, and its address.
#[derive(Clone, Copy)]
struct Peer {
    kind: Tunnel,
    addr: Addr,
}

/// Puts a record with a frame's addresses, a tag and the frame's body into the capture of a port, where there is one of this
/// number.
#[inline(always)]
fn put_at<W: Output>(
    outputs: &mut RunOutputs<W>,
    port: u8,
    moment: u64,
    addresses: &[u8],
    tag: &[u8],
    body: &[u8],
) -> Result<(), Target>
    requires moment { moment ≤ last_moment }
    requires addresses { length addresses.now ≤ 12 }
    requires tag { length tag.now ≤ 4 }
    requires short { length body.now ≤ 65549 }
    ensures { (start : Drains) (o : Texts) → StandAt start outputs.old o
        → Lead start outputs.new o
        (record o { ports = put_at port (written_record (whole_frame moment (addresses.now ++ (tag.now ++ body.now)))) o.ports }) result }
{
    if port == 0 || usize::from(port) > outputs.ports.len() {
        return Ok(());
    }
    if let Err(_) = outputs.ports[usize::from(port) - 1].put(moment, &[], addresses, tag, body) {
        return Err(Target::Port(port));
    }
    Ok(())
}

/// The octets of a tag, if there is one.
#[inline(always)]
fn octets_of(tag: &Option<[u8; 4]>) -> &[u8]
    ensures value { result.now ≡ unwrap_or tag.now [] }
    ensures few { length result.now ≤ 4 }
{
    match tag {
        Some(tag) => tag,
        None => &[],
    }
}

/// Puts a record with a head, a frame's addresses and its body into the capture of the underlay.
#[inline(always)]
fn put_out<W: Output>(
    outputs: &mut RunOutputs<W>,
    moment: u64,
    head: &[u8],
    addresses: &[u8],
    body: &[u8],
) -> Result<(), Target>
    requires moment { moment ≤ last_moment }
    requires size { length head.now + length addresses.now + length body.now ≤ longest }
    ensures { (start : Drains) (o : Texts) → StandAt start outputs.old o
        → Lead start outputs.new o
        (record o {
          underlay = o.underlay
              ++ written_record (whole_frame moment (head.now ++ (addresses.now ++ ([] ++ body.now))));
        }) result }
{
    if let Err(_) = outputs.underlay.put(moment, head, addresses, &[], body) {
        return Err(Target::Underlay);
    }
    Ok(())
}

/// Puts what leaves of a frame at a local port, and tells it in a line.
#[inline(always)]
fn put_local<W: Output>(
    outputs: &mut RunOutputs<W>,
    leaving: &Leaving,
    port: u8,
    is_first: bool,
    line: &mut Line,
) -> Result<(), Target>
    requires moment { leaving.now.moment ≤ last_moment }
    requires leave { IsTrue (can_leave (state_of leaving.now.endpoint.now).bridges.settings leaving.now.came.now.vid (Local port)) }
    requires short { length leaving.now.came.now.frame.body ≤ 65549 }
    requires room { length line.old + 77 ≤ 65536 }
    ensures sent { let S = (state_of leaving.now.endpoint.now).bridges.settings in
        (start : Drains) (o : Texts) → StandAt start outputs.old o
        → Lead start outputs.new o (with_sent leaving.now.moment o
        (sent_at S leaving.now.came.now.vid leaving.now.came.now.frame (Local port))) result }
    ensures line { let S = (state_of leaving.now.endpoint.now).bridges.settings in
        (two : Bool) → OnOk result (line.new
        ≡ line.old ++ (gap is_first ++ outcome_text two
        (sent_at S leaving.now.came.now.vid leaving.now.came.now.frame (Local port)))) }
    ensures len { OnOk result (length line.new ≤ length line.old + 77) }
{
    let tag = leaving.endpoint.tag_at(leaving.came, port);
    let tag = octets_of(&tag);
    let frame = leaving.came.frame();
    if let Err(target) = put_at(
        outputs,
        port,
        leaving.moment,
        frame.addresses,
        tag,
        frame.body,
    ) {
        return Err(target);
    }
    line.put_local(
        is_first,
        port,
        frame.addresses.len() + tag.len() + frame.body.len(),
    );
    Ok(())
}

/// Puts what leaves of a frame for a remote endpoint, if something does, and tells it in a line.
#[inline(always)]
fn put_remote<W: Output>(
    outputs: &mut RunOutputs<W>,
    leaving: &Leaving,
    peer: Peer,
    is_first: bool,
    head: &mut Head,
    line: &mut Line,
) -> Result<(), Target>
    requires moment { leaving.now.moment ≤ last_moment }
    requires there { IsSome (segment_at (state_of leaving.now.endpoint.now).bridges.settings leaving.now.came.now.vid) }
    requires leave { IsTrue (can_leave (state_of leaving.now.endpoint.now).bridges.settings leaving.now.came.now.vid
        (Remote peer.kind peer.addr)) }
    requires short { length leaving.now.came.now.frame.body ≤ 65549 }
    requires room { length line.old + 77 ≤ 65536 }
    ensures sent { let S = (state_of leaving.now.endpoint.now).bridges.settings in
        (start : Drains) (o : Texts) → StandAt start outputs.old o
        → Lead start outputs.new o (with_sent leaving.now.moment o
        (sent_at S leaving.now.came.now.vid leaving.now.came.now.frame (Remote peer.kind peer.addr))) result }
    ensures line { let S = (state_of leaving.now.endpoint.now).bridges.settings in
        OnOk result (line.new ≡ line.old ++ (gap is_first
        ++ outcome_text (has_two_tunnels S.overlay leaving.now.came.now.vid)
        (sent_at S leaving.now.came.now.vid leaving.now.came.now.frame (Remote peer.kind peer.addr)))) }
    ensures len { OnOk result (length line.new ≤ length line.old + 77) }
{
    let Peer { kind, addr } = peer;
    let count = match leaving.endpoint.put_head(leaving.came, kind, addr, head) {
        Ok(()) => {
            let frame = leaving.came.frame();
            let head = head.as_slice();
            if let Err(target) = put_out(
                outputs,
                leaving.moment,
                head,
                frame.addresses,
                frame.body,
            ) {
                return Err(target);
            }
            Ok(head.len() + frame.addresses.len() + frame.body.len())
        }
        Err(reason) => Err(reason),
    };
    let has_two_tunnels = leaving.endpoint.has_two_tunnels(leaving.came);
    line.put_remote(is_first, has_two_tunnels, kind, addr, count);
    Ok(())
}

/// Puts what leaves of a frame at a place, if something does, and tells it in a line.
#[inline(always)]
fn put_place<W: Output>(
    outputs: &mut RunOutputs<W>,
    leaving: &Leaving,
    place: &Place,
    is_first: bool,
    head: &mut Head,
    line: &mut Line,
) -> Result<(), Target>
    requires moment { leaving.now.moment ≤ last_moment }
    requires there { IsSome (segment_at (state_of leaving.now.endpoint.now).bridges.settings leaving.now.came.now.vid) }
    requires leave { IsTrue (can_leave (state_of leaving.now.endpoint.now).bridges.settings leaving.now.came.now.vid place.now) }
    requires short { length leaving.now.came.now.frame.body ≤ 65549 }
    requires room { length line.old + 77 ≤ 65536 }
    ensures sent { let S = (state_of leaving.now.endpoint.now).bridges.settings in
        (start : Drains) (o : Texts) → StandAt start outputs.old o
        → Lead start outputs.new o (with_sent leaving.now.moment o
        (sent_at S leaving.now.came.now.vid leaving.now.came.now.frame place.now)) result }
    ensures line { let S = (state_of leaving.now.endpoint.now).bridges.settings in
        OnOk result (line.new ≡ line.old ++ (gap is_first
        ++ outcome_text (has_two_tunnels S.overlay leaving.now.came.now.vid)
        (sent_at S leaving.now.came.now.vid leaving.now.came.now.frame place.now))) }
    ensures len { OnOk result (length line.new ≤ length line.old + 77) }
{
    match place {
        Place::Local(port) => put_local(outputs, leaving, *port, is_first, line),
        Place::Remote(kind, addr) => {
            let peer = Peer {
                kind: *kind,
                addr: *addr,
            };
            put_remote(outputs, leaving, peer, is_first, head, line)
        }
    }
}

/// Puts what leaves of a frame at each place, and tells it in a line that has been begun.
fn put_places<W: Output>(
    outputs: &mut RunOutputs<W>,
    leaving: &Leaving,
    places: &[Place],
    head: &mut Head,
    line: &mut Line,
) -> Result<(), Target>
    requires moment { leaving.now.moment ≤ last_moment }
    requires there { IsSome (segment_at (state_of leaving.now.endpoint.now).bridges.settings leaving.now.came.now.vid) }
    requires leave { IsTrue (list_all (can_leave (state_of leaving.now.endpoint.now).bridges.settings leaving.now.came.now.vid)
        places.now) }
    requires short { length leaving.now.came.now.frame.body ≤ 65549 }
    requires few { length places.now ≤ 767 }
    requires room { length line.old ≤ 74 }
    ensures sent { let S = (state_of leaving.now.endpoint.now).bridges.settings in
        (start : Drains) (o : Texts) → StandAt start outputs.old o
        → Lead start outputs.new o (with_all_sent leaving.now.moment o
        (map (sent_at S leaving.now.came.now.vid leaving.now.came.now.frame) places.now)) result }
    ensures order { let S = (state_of leaving.now.endpoint.now).bridges.settings in
        (start : Drains) (o : Texts) → StandAt start outputs.old o
        → SendsInOrder start outputs.new leaving.now.moment o
        (map (sent_at S leaving.now.came.now.vid leaving.now.came.now.frame) places.now) result }
    ensures line { let S = (state_of leaving.now.endpoint.now).bridges.settings in
        LineLeads line.old line.new (outcomes_text (has_two_tunnels S.overlay leaving.now.came.now.vid)
        (map (sent_at S leaving.now.came.now.vid leaving.now.came.now.frame) places.now)) result }
{
    let mut is_first = true;
    for place in places {
        if let Err(target) = put_place(outputs, leaving, place, is_first, head, line) {
            return Err(target);
        }
        is_first = false;
    }
    Ok(())
}

/// Puts a line to the decisions.
pub fn put_line<W: Output>(outputs: &mut RunOutputs<W>, line: &[u8]) -> Result<(), Target>
    ensures line { (start : Drains) (o : Texts) → StandAt start outputs.old o → Lead start outputs.new o (with_line o line.now) result }
    ensures captures { outputs.new ≡ record outputs.old { decisions = outputs.new.decisions } }
{
    if let Err(_) = outputs.decisions.write_all(line) {
        return Err(Target::Decisions);
    }
    Ok(())
}

/// Puts what comes of a frame that leaves: its emissions in order of outlets, and then the event's line.
fn put_forwarded<W: Output>(
    outputs: &mut RunOutputs<W>,
    endpoint: &Endpoint,
    scratch: &mut Scratch,
    event: &Event,
    came: &Arrival,
) -> Result<(), Target>
    requires moment { event.now.moment ≤ last_moment }
    requires there { IsSome (segment_at (state_of endpoint.now).bridges.settings came.now.vid) }
    requires leave { IsTrue (list_all (can_leave (state_of endpoint.now).bridges.settings came.now.vid) scratch.old.places.items) }
    requires short { length came.now.frame.body ≤ 65549 }
    ensures outputs { let S = (state_of endpoint.now).bridges.settings in
        (start : Drains) (o : Texts) → StandAt start outputs.old o
        → Lead start outputs.new o
        (with_input scratch.old.number None o event.now
        (Decided (Rattle.endpoint_core.specs.Step.by_verdict S came.now
        (Rattle.std.specs.Prelude.Ok scratch.old.places.items)))) result }
    ensures order { let S = (state_of endpoint.now).bridges.settings in
        (start : Drains) (o : Texts) → StandAt start outputs.old o
        → PutsInOrder start outputs.new scratch.old.number None o event.now
        (Decided (Rattle.endpoint_core.specs.Step.by_verdict S came.now (Rattle.std.specs.Prelude.Ok scratch.old.places.items))) result }
    ensures number { scratch.new.number ≡ scratch.old.number }
{
    scratch
        .line
        .begin(&scratch.number, event, Some(came.segment()));
    let leaving = Leaving {
        endpoint,
        came,
        moment: event.moment,
    };
    if let Err(target) = put_places(
        outputs,
        &leaving,
        scratch.places.as_slice(),
        &mut scratch.head,
        &mut scratch.line,
    ) {
        return Err(target);
    }
    scratch.line.end();
    put_line(outputs, scratch.line.text())
}

/// Puts what comes of a frame or a packet that the endpoint took just now: its emissions in order of outlets, and then
/// the event's line.
pub fn put_forwarding<W: Output>(
    outputs: &mut RunOutputs<W>,
    endpoint: &Endpoint,
    scratch: &mut Scratch,
    event: &Event,
    forwarding: &Forwarding,
) -> Result<(), Target>
    requires moment { event.now.moment ≤ last_moment }
    requires there { IsThere (state_of endpoint.now).bridges.settings forwarding.now }
    requires short { IsShortFrame forwarding.now }
    requires leave { CanLeave (state_of endpoint.now).bridges.settings forwarding.now scratch.old.places.items }
    ensures outputs { (start : Drains) (o : Texts) → StandAt start outputs.old o
        → Lead start outputs.new o
        (with_input scratch.old.number None o event.now
        (Decided (decision_of (state_of endpoint.now).bridges.settings forwarding.now scratch.old.places.items))) result }
    ensures order { (start : Drains) (o : Texts) → StandAt start outputs.old o
        → PutsInOrder start outputs.new scratch.old.number None o event.now
        (Decided (decision_of (state_of endpoint.now).bridges.settings forwarding.now scratch.old.places.items)) result }
    ensures number { scratch.new.number ≡ scratch.old.number }
{
    match forwarding {
        Err(refused) => {
            scratch.line.write_drop(&scratch.number, event, *refused);
            put_line(outputs, scratch.line.text())
        }
        Ok(came) => put_forwarded(outputs, endpoint, scratch, event, came),
    }
}
