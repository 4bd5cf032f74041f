//! What comes of one event of a run.
ghost use Rattle.std.specs.Prelude.{◌≡◌, ◌≤◌, ◌+◌, ◌++◌, None, Ok, IsSome, IsTrue, length, map, OnOk};
ghost use Rattle.std.specs.List.{list_all};
ghost use Rattle.timeline.specs.Events.{IsEventOf};
ghost use Rattle.filter_db.specs.declared.place.Place.TheVariants.{Local, Remote};
ghost use Rattle.endpoint_core.specs.Forwarding.{CanLeave, IsShortFrame, IsThere, decision_of};
ghost use Rattle.endpoint_core.specs.Event.{change_at, frame_at, packet_at};
ghost use Rattle.endpoint_core.specs.Kept.{state_of};
ghost use Rattle.endpoint_core.specs.Step.{Decided, answer, after, by_verdict, has_two_tunnels, sent_at};
ghost use Rattle.endpoint_core.specs.Text.{outcomes_text};
ghost use Rattle.endpoint_core.specs.Change.{named};
ghost use Rattle.endpoint_core.specs.Settings.{segment_at};
ghost use Rattle.endpoint_core.specs.StateStep.{can_leave};
ghost use Rattle.pcap.specs.Record.{last_moment};
ghost use Rattle.decision_lines.specs.Lines.{answer_text, line};
ghost use Rattle.capture_run.specs.Outputs.{event_of};
ghost use Rattle.capture_run.specs.Writing.{seen, with_all_sent, with_event, with_input, with_sent};

use crate::outputs::Outputs;
use decision_lines::{Line, Scratch};
use endpoint_core::{Arrival, Endpoint, Forwarding, Head};
use filter_db::Place;
use overlay_config::{Change, TimedChange};
use std::alloc::AllocError;
use timeline::{Captured, Event, Happening, Tap};
use wire::ip_udp::{Addr, Tunnel};

/// Puts what leaves of a frame at a local port.
fn put_local(
    outputs: &mut Outputs,
    endpoint: &Endpoint,
    came: &Arrival,
    port: u8,
    moment: u64,
) -> Result<(), AllocError>
    requires moment { moment ≤ last_moment }
    requires short { length came.now.frame.body ≤ 65549 }
    requires leave { IsTrue (can_leave (state_of endpoint.now).bridges.settings came.now.vid (Local port)) }
    ensures { let S = (state_of endpoint.now).bridges.settings in
        OnOk result (seen outputs.new
        ≡ with_sent moment (seen outputs.old) (sent_at S came.now.vid came.now.frame (Local port))) }
{
    let tag = endpoint.tag_at(came, port);
    outputs.put_local(moment, port, came.frame(), &tag)
}

/// Puts what leaves of a frame for a remote endpoint, if something does.
fn put_remote(
    outputs: &mut Outputs,
    head: &mut Head,
    endpoint: &Endpoint,
    came: &Arrival,
    kind: Tunnel,
    addr: Addr,
    moment: u64,
) -> Result<(), AllocError>
    requires moment { moment ≤ last_moment }
    requires short { length came.now.frame.body ≤ 65549 }
    requires leave { IsTrue (can_leave (state_of endpoint.now).bridges.settings came.now.vid (Remote kind addr)) }
    ensures { let S = (state_of endpoint.now).bridges.settings in
        OnOk result (seen outputs.new
        ≡ with_sent moment (seen outputs.old) (sent_at S came.now.vid came.now.frame (Remote kind addr))) }
{
    match endpoint.put_head(came, kind, addr, head) {
        Ok(()) => outputs.put_remote(moment, head, came.frame()),
        Err(_) => Ok(()),
    }
}

/// Puts what leaves of a frame at a place, if something does.
fn put_sent(
    outputs: &mut Outputs,
    head: &mut Head,
    endpoint: &Endpoint,
    came: &Arrival,
    place: Place,
    moment: u64,
) -> Result<(), AllocError>
    requires moment { moment ≤ last_moment }
    requires short { length came.now.frame.body ≤ 65549 }
    requires leave { IsTrue (can_leave (state_of endpoint.now).bridges.settings came.now.vid place) }
    ensures { let S = (state_of endpoint.now).bridges.settings in
        OnOk result (seen outputs.new ≡ with_sent moment (seen outputs.old) (sent_at S came.now.vid came.now.frame place)) }
{
    match place {
        Place::Local(port) => put_local(outputs, endpoint, came, port, moment),
        Place::Remote(kind, addr) => {
            put_remote(outputs, head, endpoint, came, kind, addr, moment)
        }
    }
}

/// Puts what leaves of a frame at each place, and what came of it there to the line.
fn put_outcomes(
    outputs: &mut Outputs,
    line: &mut Line,
    head: &mut Head,
    endpoint: &Endpoint,
    came: &Arrival,
    places: &[Place],
    moment: u64,
) -> Result<(), AllocError>
    requires moment { moment ≤ last_moment }
    requires there { IsSome (segment_at (state_of endpoint.now).bridges.settings came.now.vid) }
    requires short { length came.now.frame.body ≤ 65549 }
    requires leave { IsTrue (list_all (can_leave (state_of endpoint.now).bridges.settings came.now.vid) places.now) }
    requires few { length places.now ≤ 767 }
    requires room { length line.old + 59059 ≤ 65536 }
    ensures sent { let S = (state_of endpoint.now).bridges.settings in
        OnOk result (seen outputs.new
        ≡ with_all_sent moment (seen outputs.old) (map (sent_at S came.now.vid came.now.frame) places.now)) }
    ensures text { let S = (state_of endpoint.now).bridges.settings in OnOk result
        (line.new ≡ line.old
        ++ outcomes_text (has_two_tunnels S.overlay came.now.vid) (map (sent_at S came.now.vid came.now.frame) places.now)) }
    ensures len { OnOk result (length line.new ≤ length line.old + 59059) }
{
    let two_tunnels = endpoint.has_two_tunnels(came);
    let mut is_first = true;
    for place in places {
        put_sent(outputs, head, endpoint, came, *place, moment)?;
        line.put_sized(endpoint, came, is_first, two_tunnels, *place);
        is_first = false;
    }
    Ok(())
}

/// Puts what leaves of a frame, and writes its decision line.
fn put_leaving(
    outputs: &mut Outputs,
    endpoint: &Endpoint,
    scratch: &mut Scratch,
    event: &Event,
    came: &Arrival,
) -> Result<(), AllocError>
    requires moment { event.now.moment ≤ last_moment }
    requires there { IsSome (segment_at (state_of endpoint.now).bridges.settings came.now.vid) }
    requires short { length came.now.frame.body ≤ 65549 }
    requires leave { IsTrue (list_all (can_leave (state_of endpoint.now).bridges.settings came.now.vid) scratch.old.places.items) }
    ensures sent { let S = (state_of endpoint.now).bridges.settings in OnOk result
        (seen outputs.new ≡ with_all_sent event.now.moment (seen outputs.old)
        (map (sent_at S came.now.vid came.now.frame) scratch.old.places.items)) }
    ensures line { OnOk result (scratch.new.line ≡ line scratch.old.number event.now
        (answer_text None (Decided (by_verdict (state_of endpoint.now).bridges.settings came.now (Ok scratch.old.places.items))))) }
    ensures number { scratch.new.number ≡ scratch.old.number }
{
    let Scratch {
        number,
        places,
        head,
        line,
    } = scratch;
    line.begin(number, event, Some(came.segment()));
    put_outcomes(
        outputs,
        line,
        head,
        endpoint,
        came,
        places.as_slice(),
        event.moment,
    )?;
    line.end();
    Ok(())
}

/// Puts what comes of a frame or a packet that the endpoint took just now: what leaves, and its decision line.
fn put_forwarding(
    outputs: &mut Outputs,
    endpoint: &Endpoint,
    scratch: &mut Scratch,
    event: &Event,
    forwarding: &Forwarding,
) -> Result<(), AllocError>
    requires moment { event.now.moment ≤ last_moment }
    requires there { IsThere (state_of endpoint.now).bridges.settings forwarding.now }
    requires short { IsShortFrame forwarding.now }
    requires leave { CanLeave (state_of endpoint.now).bridges.settings forwarding.now scratch.old.places.items }
    ensures outputs { let S = (state_of endpoint.now).bridges.settings in OnOk result (seen outputs.new
        ≡ with_input scratch.old.number None (seen outputs.old) event.now
        (Decided (decision_of S forwarding.now scratch.old.places.items))) }
    ensures number { scratch.new.number ≡ scratch.old.number }
{
    match forwarding {
        Err(refused) => scratch.line.write_drop(&scratch.number, event, *refused),
        Ok(came) => put_leaving(outputs, endpoint, scratch, event, came)?,
    }
    outputs.put_line(scratch.line.text())
}

/// Puts a change to the endpoint, and what comes of it to the outputs.
fn put_change(
    outputs: &mut Outputs,
    endpoint: &mut Endpoint,
    scratch: &mut Scratch,
    event: &Event,
    change: Change,
) -> Result<(), AllocError>
    requires { (state_of endpoint.old).moment ≤ event.now.moment }
    ensures state { state_of endpoint.new ≡ after (state_of endpoint.old) (change_at event.now.moment change) }
    ensures outputs { OnOk result (seen outputs.new ≡ with_input scratch.old.number (named change) (seen outputs.old) event.now
        (answer (state_of endpoint.old) (change_at event.now.moment change))) }
    ensures number { scratch.new.number ≡ scratch.old.number }
{
    let asked = change;
    let reply = endpoint.change(event.moment, asked);
    scratch
        .line
        .write_reply(&scratch.number, event, change.vid(), reply);
    outputs.put_line(scratch.line.text())
}

/// Puts a frame at a local port to the endpoint, and what comes of it to the outputs.
fn put_frame(
    outputs: &mut Outputs,
    endpoint: &mut Endpoint,
    scratch: &mut Scratch,
    event: &Event,
    port: u8,
    frame: &Captured,
) -> Result<(), AllocError>
    requires time { (state_of endpoint.old).moment ≤ event.now.moment }
    requires moment { event.now.moment ≤ last_moment }
    requires low { 1 ≤ port }
    requires high { port ≤ length (state_of endpoint.old).bridges.settings.ports.ports }
    ensures state { state_of endpoint.new
        ≡ after (state_of endpoint.old) (frame_at event.now.moment port frame.now.original frame.now.octets) }
    ensures outputs { OnOk result (seen outputs.new ≡ with_input scratch.old.number None (seen outputs.old) event.now
        (answer (state_of endpoint.old) (frame_at event.now.moment port frame.now.original frame.now.octets))) }
    ensures number { scratch.new.number ≡ scratch.old.number }
{
    let forwarding = endpoint.take_frame(
        event.moment,
        port,
        frame.original,
        frame.octets,
        &mut scratch.places,
    );
    put_forwarding(outputs, endpoint, scratch, event, &forwarding)
}

/// Puts a packet from the underlay to the endpoint, and what comes of it to the outputs.
fn put_packet(
    outputs: &mut Outputs,
    endpoint: &mut Endpoint,
    scratch: &mut Scratch,
    event: &Event,
    packet: &Captured,
) -> Result<(), AllocError>
    requires time { (state_of endpoint.old).moment ≤ event.now.moment }
    requires moment { event.now.moment ≤ last_moment }
    ensures state { state_of endpoint.new
        ≡ after (state_of endpoint.old) (packet_at event.now.moment packet.now.original packet.now.octets) }
    ensures outputs { OnOk result (seen outputs.new ≡ with_input scratch.old.number None (seen outputs.old) event.now
        (answer (state_of endpoint.old) (packet_at event.now.moment packet.now.original packet.now.octets))) }
    ensures number { scratch.new.number ≡ scratch.old.number }
{
    let forwarding = endpoint.take_packet(
        event.moment,
        packet.original,
        packet.octets,
        &mut scratch.places,
    );
    put_forwarding(outputs, endpoint, scratch, event, &forwarding)
}

/// Puts an event to the endpoint, and what comes of it to the outputs.
pub(crate) fn put_event(
    outputs: &mut Outputs,
    endpoint: &mut Endpoint,
    scratch: &mut Scratch,
    changes: &[TimedChange],
    event: &Event,
) -> Result<(), AllocError>
    requires time { (state_of endpoint.old).moment ≤ event.now.moment }
    requires known { IsEventOf (length changes.now) (length (state_of endpoint.old).bridges.settings.ports.ports) event.now }
    ensures state { state_of endpoint.new ≡ after (state_of endpoint.old) (event_of (map (λ c. c.change) changes.now) event.now) }
    ensures outputs { OnOk result (seen outputs.new
        ≡ with_event (map (λ c. c.change) changes.now) scratch.old.number (seen outputs.old) event.now
        (answer (state_of endpoint.old) (event_of (map (λ c. c.change) changes.now) event.now))) }
    ensures number { scratch.new.number ≡ scratch.old.number }
{
    match &event.happening {
        Happening::Change(index) => {
            let change = changes[*index].change;
            put_change(outputs, endpoint, scratch, event, change)
        }
        Happening::Record(Tap::Port(port), frame) => {
            put_frame(outputs, endpoint, scratch, event, *port, frame)
        }
        Happening::Record(Tap::Underlay, packet) => {
            put_packet(outputs, endpoint, scratch, event, packet)
        }
    }
}
