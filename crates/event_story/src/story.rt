//! The story of an event.
ghost use Rattle.std.specs.Prelude.{◌≡◌, ◌≤◌, ◌++◌, length, Err, IfOk, IsSome, IsTrue, Ok, OnOk, true};
ghost use Rattle.std.specs.List.{list_all};
ghost use Rattle.endpoint_core.specs.Settings.{segment_at};
ghost use Rattle.endpoint_core.specs.Sound.{is_reached};
ghost use Rattle.endpoint_core.specs.State.{aged};
ghost use Rattle.endpoint_core.specs.StateStep.{can_leave};
ghost use Rattle.endpoint_core.specs.Decision.{refused_as};
ghost use Rattle.endpoint_core.specs.Event.{frame_at, packet_at};
ghost use Rattle.endpoint_core.specs.Kept.{state_of};
ghost use Rattle.endpoint_core.specs.Step.{Decided, answer, by_verdict, decided, decided_in};
ghost use Rattle.event_story.specs.Bridge.{bridge_facts};
ghost use Rattle.event_story.specs.Story.{came_facts, frame_facts, arrival_facts, told, is_there, can_come, story, run_story};

use crate::bridge::put_bridge_facts;
use crate::fact::Fact;
use crate::line::put_facts;
use crate::local::put_local_facts;
use crate::outcomes::{put_drop, put_outcomes};
use crate::outlets::put_outlet_facts;
use crate::packet::put_packet_facts;
use change_story::story_of_change;
use change_story::words::put_line_front;
use endpoint_core::{Arrival, Endpoint, Forwarding};
use filter_db::Place;
use overlay::settings::TimedChange;
use std::alloc::{AllocError, Global};
use timeline::{Event, Happening, Tap};
use tunnel_learning::Outlets;
use wire::ether::{Reason, Refused};

/// The room for facts that a story begins with. More is asked for where there are more.
const FACTS: usize = 24;

/// The same for the octets of its text.
const OCTETS: usize = 1024;

/// The story of an event of this number, in the state in which it comes to an endpoint: what each test saw, a line each,
/// in the order of the tests up to the one that refuses, what the bridge knows of both addresses, and last the decision
/// line. A change has none, nor has an event that can't come: before the last one, or at a port that isn't there. The
/// endpoint stays as it is. `AllocError`: there was no room for the text, or for the facts.
pub fn story_of_event(
    alloc: Global,
    endpoint: &Endpoint,
    number: u64,
    event: &Event,
) -> Result<Vec<u8>, AllocError>
    ensures { IfOk result (λ text. text.items ≡ story (state_of endpoint.now) number event.now) }
{
    if !can_come(endpoint, event) {
        return Ok(Vec::new(alloc));
    }
    match &event.happening {
        Happening::Change(_) => Ok(Vec::new(alloc)),
        Happening::Record(Tap::Port(port), captured) => {
            let (original, octets) = (captured.original, captured.octets);
            frame_story(alloc, endpoint, number, event, *port, original, octets)
        }
        Happening::Record(Tap::Underlay, captured) => {
            let (original, octets) = (captured.original, captured.octets);
            packet_story(alloc, endpoint, number, event, original, octets)
        }
    }
}

/// The same of an event of a run with these changes, in their order: the story of a change is that of
/// [`story_of_change`], and there is none of a change that isn't among them.
pub fn story_in_run(
    alloc: Global,
    endpoint: &Endpoint,
    changes: &[TimedChange],
    number: u64,
    event: &Event,
) -> Result<Vec<u8>, AllocError>
    ensures { IfOk result (λ text. text.items ≡ run_story changes.now (state_of endpoint.now) number event.now) }
{
    match &event.happening {
        Happening::Change(index) => match changes.get(*index) {
            Some(timed) => story_of_change(alloc, endpoint, number, event, timed.change),
            None => Ok(Vec::new(alloc)),
        },
        Happening::Record(..) => story_of_event(alloc, endpoint, number, event),
    }
}

/// Whether an event can come to an endpoint: it isn't before the last one, and it is at a port that is there.
pub fn can_come(endpoint: &Endpoint, event: &Event) -> bool
    ensures { result ≡ can_come (state_of endpoint.now) event.now }
{
    endpoint.now() <= event.moment && is_there(endpoint.ports(), &event.happening)
}

/// Whether there is such a port.
fn is_there(ports: u8, happening: &Happening) -> bool
    ensures { result ≡ is_there ports happening.now }
{
    match happening {
        Happening::Record(Tap::Port(port), _) => 1 <= *port && *port <= ports,
        _ => true,
    }
}

/// The story of octets at a local port.
fn frame_story(
    alloc: Global,
    endpoint: &Endpoint,
    number: u64,
    event: &Event,
    port: u8,
    original: u32,
    octets: &[u8],
) -> Result<Vec<u8>, AllocError>
    requires time { (state_of endpoint.now).moment ≤ event.now.moment }
    requires low { 1 ≤ port }
    requires high { port ≤ length (state_of endpoint.now).bridges.settings.ports.ports }
    ensures { let s = state_of endpoint.now in let t = event.now.moment in
        IfOk result (λ text. text.items ≡ told number event.now
        (frame_facts t s.bridges (aged t s.bridges) port original octets.now) (answer s (frame_at t port original octets.now))) }
{
    let came = endpoint.frame_from(port, original, octets);
    let ports = endpoint.state().ports();
    let mut facts = Vec::with_capacity(alloc, FACTS)?;
    put_local_facts(&mut facts, ports, port, original, octets, &came)?;
    let text = came_story(alloc, endpoint, number, event, facts, &came)?;
    Ok(text)
}

/// The story of a packet of the underlay.
fn packet_story(
    alloc: Global,
    endpoint: &Endpoint,
    number: u64,
    event: &Event,
    original: u32,
    octets: &[u8],
) -> Result<Vec<u8>, AllocError>
    requires time { (state_of endpoint.now).moment ≤ event.now.moment }
    ensures { let s = state_of endpoint.now in let t = event.now.moment in
        IfOk result (λ text. text.items ≡ told number event.now
        (arrival_facts t s.bridges (aged t s.bridges) original octets.now) (answer s (packet_at t original octets.now))) }
{
    let came = endpoint.frame_in(original, octets);
    let under = endpoint.state().under();
    let mut facts = Vec::with_capacity(alloc, FACTS)?;
    put_packet_facts(&mut facts, under, original, octets, &came)?;
    let text = came_story(alloc, endpoint, number, event, facts, &came)?;
    Ok(text)
}

/// The story of what came so to a segment or to none, behind the facts of how it came.
fn came_story(
    alloc: Global,
    endpoint: &Endpoint,
    number: u64,
    event: &Event,
    facts: Vec<Fact>,
    came: &Forwarding,
) -> Result<Vec<u8>, AllocError>
    requires time { (state_of endpoint.now).moment ≤ event.now.moment }
    requires there { IfOk came.now (λ x. IsSome (segment_at (state_of endpoint.now).bridges.settings x.vid)) }
    requires reached { IfOk came.now (λ x. is_reached (state_of endpoint.now).bridges.settings.overlay x.vid x.from ≡ true) }
    ensures { let s = state_of endpoint.now in let t = event.now.moment in let B = aged t s.bridges in let d = decided t B came.now in
        IfOk result (λ text. text.items ≡ told number event.now (facts.items ++ came_facts t s.bridges B came.now d) (Decided d)) }
{
    match came {
        Ok(came) => bridge_story(alloc, endpoint, number, event, facts, came),
        Err(refused) => dropped_told(alloc, number, event, &facts, *refused),
    }
}

/// The story of a frame that came to a segment: where the bridge of that would send it, or why nowhere.
fn bridge_story(
    alloc: Global,
    endpoint: &Endpoint,
    number: u64,
    event: &Event,
    facts: Vec<Fact>,
    came: &Arrival,
) -> Result<Vec<u8>, AllocError>
    requires time { (state_of endpoint.now).moment ≤ event.now.moment }
    requires there { IsSome (segment_at (state_of endpoint.now).bridges.settings came.now.vid) }
    requires reached { is_reached (state_of endpoint.now).bridges.settings.overlay came.now.vid came.now.from ≡ true }
    ensures { let s = state_of endpoint.now in let t = event.now.moment in let B = aged t s.bridges in let d = decided_in t B came.now in
        IfOk result (λ text. text.items ≡ told number event.now (facts.items ++ came_facts t s.bridges B (Ok came.now) d) (Decided d)) }
{
    let state = endpoint.state();
    let mut places = Outlets::new();
    let sent = state.foresee(
        event.moment,
        came.segment(),
        came.place(),
        came.frame(),
        &mut places,
    );
    match sent {
        Ok(()) => {
            sent_story(
                alloc,
                endpoint,
                number,
                event,
                facts,
                came,
                places.as_slice(),
            )
        }
        Err(reason) => dropped_story(alloc, endpoint, number, event, facts, came, reason),
    }
}

/// The story of a frame that the bridge of its segment sends to these places.
fn sent_story(
    alloc: Global,
    endpoint: &Endpoint,
    number: u64,
    event: &Event,
    mut facts: Vec<Fact>,
    came: &Arrival,
    places: &[Place],
) -> Result<Vec<u8>, AllocError>
    requires time { (state_of endpoint.now).moment ≤ event.now.moment }
    requires there { IsSome (segment_at (state_of endpoint.now).bridges.settings came.now.vid) }
    requires leave { IsTrue (list_all (can_leave (state_of endpoint.now).bridges.settings came.now.vid) places.now) }
    ensures { let s = state_of endpoint.now in let t = event.now.moment in
        let B = aged t s.bridges in let d = by_verdict s.bridges.settings came.now (Ok places.now) in
        IfOk result (λ text. text.items ≡ told number event.now (facts.items ++ came_facts t s.bridges B (Ok came.now) d) (Decided d)) }
{
    put_facts_of_bridge(&mut facts, endpoint, event, came, None)?;
    let state = endpoint.state();
    put_outlet_facts(&mut facts, state, came.segment(), came.frame(), places)?;
    let text = sent_told(alloc, endpoint, number, event, &facts, came, places)?;
    Ok(text)
}

/// The story of a frame that the bridge of its segment sends nowhere.
fn dropped_story(
    alloc: Global,
    endpoint: &Endpoint,
    number: u64,
    event: &Event,
    mut facts: Vec<Fact>,
    came: &Arrival,
    reason: Reason,
) -> Result<Vec<u8>, AllocError>
    requires time { (state_of endpoint.now).moment ≤ event.now.moment }
    requires there { IsSome (segment_at (state_of endpoint.now).bridges.settings came.now.vid) }
    ensures { let s = state_of endpoint.now in let t = event.now.moment in
        let B = aged t s.bridges in let d = by_verdict s.bridges.settings came.now (Err reason) in
        IfOk result (λ text. text.items ≡ told number event.now (facts.items ++ came_facts t s.bridges B (Ok came.now) d) (Decided d)) }
{
    put_facts_of_bridge(&mut facts, endpoint, event, came, Some(reason))?;
    let refused = Refused::within(came.segment(), reason);
    let text = dropped_told(alloc, number, event, &facts, refused)?;
    Ok(text)
}

/// Puts the facts of the bridge of its segment on a frame; `dropped` is why that bridge sends it nowhere, where it does so.
fn put_facts_of_bridge(
    facts: &mut Vec<Fact>,
    endpoint: &Endpoint,
    event: &Event,
    came: &Arrival,
    dropped: Option<Reason>,
) -> Result<(), AllocError>
    requires time { (state_of endpoint.now).moment ≤ event.now.moment }
    requires there { IsSome (segment_at (state_of endpoint.now).bridges.settings came.now.vid) }
    ensures { let s = state_of endpoint.now in let t = event.now.moment in
        OnOk result (facts.new.items ≡ facts.old.items ++ bridge_facts t s.bridges (aged t s.bridges) came.now dropped) }
{
    let left = endpoint.now();
    let state = endpoint.state();
    put_bridge_facts(facts, state, left, event.moment, came, dropped)
}

/// The lines of facts, and the decision line of a frame that leaves at these places.
fn sent_told(
    alloc: Global,
    endpoint: &Endpoint,
    number: u64,
    event: &Event,
    facts: &[Fact],
    came: &Arrival,
    places: &[Place],
) -> Result<Vec<u8>, AllocError>
    requires there { IsSome (segment_at (state_of endpoint.now).bridges.settings came.now.vid) }
    requires leave { IsTrue (list_all (can_leave (state_of endpoint.now).bridges.settings came.now.vid) places.now) }
    ensures { let S = (state_of endpoint.now).bridges.settings in
        IfOk result (λ text. text.items ≡ told number event.now facts.now (Decided (by_verdict S came.now (Ok places.now)))) }
{
    let mut text = String::with_capacity(alloc, OCTETS)?;
    put_facts(&mut text, facts)?;
    put_line_front(&mut text, number, event, Some(came.segment()))?;
    put_outcomes(&mut text, endpoint, came, places)?;
    text.push('\n')?;
    Ok(text.into_bytes())
}

/// The lines of facts, and the decision line of what is dropped.
fn dropped_told(
    alloc: Global,
    number: u64,
    event: &Event,
    facts: &[Fact],
    refused: Refused,
) -> Result<Vec<u8>, AllocError>
    ensures { IfOk result (λ text. text.items ≡ told number event.now facts.now (Decided (refused_as refused))) }
{
    let mut text = String::with_capacity(alloc, OCTETS)?;
    put_facts(&mut text, facts)?;
    put_line_front(&mut text, number, event, refused.segment)?;
    put_drop(&mut text, refused.reason)?;
    text.push('\n')?;
    Ok(text.into_bytes())
}
