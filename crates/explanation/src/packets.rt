//! Packets of a capture, explained one by one.
ghost use Rattle.std.specs.Prelude.{◌≡◌, ◌≤◌, ◌+◌, ◌++◌, [], IfOk, OnOk};
ghost use Rattle.std.specs.List.{AllByRecursion, flat_map};
ghost use Rattle.overlay_config.specs.Settings.{settings_in};
ghost use Rattle.timeline.specs.Events.{IsEventOf};
ghost use Rattle.timeline.specs.Order.{IsRising};
ghost use Rattle.endpoint_core.specs.Opened.{settings_told};
ghost use Rattle.endpoint_core.specs.Event.{packet_at};
ghost use Rattle.endpoint_core.specs.Kept.{state_of};
ghost use Rattle.endpoint_core.specs.Step.{answer, after};
ghost use Rattle.decision_lines.specs.Lines.{line, answer_text, cut_line};
ghost use Rattle.capture_run.specs.Outputs.{event_of};
ghost use Rattle.packet_layers.specs.Dissection.{dissection};
ghost use Rattle.explanation.specs.Text.{card_line, is_left_at, layers_text};
ghost use Rattle.explanation.specs.Explanation.{explanation, explained_run, Gives};
ghost use Rattle.explanation.specs.Growing.{text_at, texts_from};

use crate::text::{Values, write_layers};
use capture_run::{RunFault, of_captures, of_settings};
use decapsulate::is_left_to_card;
use decision_lines::{Line, Scratch};
use endpoint_core::Endpoint;
use overlay::underlay::Overlay;
use overlay_config::{Settings, settings_of};
use packet_layers::words::Lines;
use packet_layers::{Layers, Stop, dissect};
use std::alloc::{AllocError, Global};
use timeline::{Cut, Event, Happening, Tap, Timeline};
use wire::ether::Reason;

/// What is lent to each packet: its layers, and their lines.
#[derive(Drop)]
struct Sheet<'a> {
    layers: Layers<'a>,
    lines: Lines,
}

impl<'a> Sheet<'a> {
    fn new() -> Sheet<'a> {
        Sheet {
            layers: Layers::empty(),
            lines: Lines::new(),
        }
    }
}

/// Explains the packets of a capture, which come to a fresh endpoint with the settings of a text: for each its decision
/// line and the lines of its layers, with at most `depth` tunnel headers, 1 to 4, and with the values of the headers where
/// these are shown; a line more where they end at a checksum that was left to the card; and one where the capture ends with
/// a cut rest.
///
/// The first fault is answered: of the settings, of the capture's header, of a record. `OutOfMemory` comes only where
/// memory was refused.
pub fn explain_bytes(
    alloc: Global,
    settings: &[u8],
    capture: &[u8],
    depth: usize,
    values: Values,
) -> Result<Vec<u8>, RunFault>
    requires low { 1 ≤ depth }
    requires high { depth ≤ 4 }
    ensures { Gives result (explained_run (settings_in settings.now) capture.now depth values) }
{
    let settings = match settings_of(alloc, settings) {
        Ok(settings) => settings,
        Err(fault) => return Err(of_settings(fault)),
    };
    let timeline = match Timeline::read(alloc, &[], &[], capture) {
        Ok(timeline) => timeline,
        Err(fault) => return Err(of_captures(fault)),
    };
    Ok(explanation_of(alloc, settings, &timeline, depth, values)?)
}

/// The text of the packets of a capture.
fn explanation_of(
    alloc: Global,
    settings: Settings,
    timeline: &Timeline,
    depth: usize,
    values: Values,
) -> Result<Vec<u8>, AllocError>
    requires low { 1 ≤ depth }
    requires high { depth ≤ 4 }
    requires known { AllByRecursion (IsEventOf 0 0) timeline.now.events }
    ensures { IfOk result (λ text. text.items ≡ explanation (settings_told settings) depth values timeline.now) }
{
    let mut endpoint = Endpoint::open(alloc, settings)?;
    text_of(
        alloc,
        &mut endpoint,
        depth,
        values,
        timeline.events(),
        timeline.cuts(),
    )
}

/// The text of packets that come to an endpoint, and of the captures that are cut.
fn text_of(
    alloc: Global,
    endpoint: &mut Endpoint,
    depth: usize,
    values: Values,
    events: &[Event],
    cuts: &[Cut],
) -> Result<Vec<u8>, AllocError>
    requires low { 1 ≤ depth }
    requires high { depth ≤ 4 }
    requires rising { IsRising (state_of endpoint.old).moment events.now }
    requires known { AllByRecursion (IsEventOf 0 0) events.now }
    ensures { IfOk result (λ text. text.items
        ≡ texts_from depth values 0 (state_of endpoint.old) events.now ++ flat_map cut_line cuts.now) }
{
    let mut scratch = Scratch::new();
    let mut text = Vec::new(alloc);
    let mut sheet = Sheet::new();
    put_events(
        &mut text,
        endpoint,
        &mut scratch,
        &mut sheet,
        depth,
        values,
        events,
    )?;
    put_cuts(&mut text, &mut scratch.line, cuts)?;
    Ok(text)
}

/// Puts a packet to the endpoint, and its decision line and its layers to the text.
fn put_packet<'a>(
    text: &mut Vec<u8>,
    endpoint: &mut Endpoint,
    scratch: &mut Scratch,
    sheet: &mut Sheet<'a>,
    depth: usize,
    values: Values,
    event: &Event<'a>,
    original: u32,
    octets: &'a [u8],
) -> Result<(), AllocError>
    requires low { 1 ≤ depth }
    requires high { depth ≤ 4 }
    requires time { (state_of endpoint.old).moment ≤ event.now.moment }
    ensures state { state_of endpoint.new ≡ after (state_of endpoint.old) (packet_at event.now.moment original octets.now) }
    ensures text { OnOk result (text.new.items ≡ text.old.items
        ++ (line scratch.old.number event.now
        (answer_text None (answer (state_of endpoint.old) (packet_at event.now.moment original octets.now)))
        ++ (layers_text values (dissection (state_of endpoint.old).bridges.settings.overlay depth octets.now)
        ++ card_line (is_left_at (state_of endpoint.old).bridges.settings.overlay octets.now
        (dissection (state_of endpoint.old).bridges.settings.overlay depth octets.now).stop)))) }
    ensures number { scratch.new.number ≡ scratch.old.number }
{
    dissect(&mut sheet.layers, octets, endpoint.under(), depth);
    let is_left = is_left_at(sheet.layers.stop(), endpoint.under(), octets);
    let forwarding = endpoint.take_packet(event.moment, original, octets, &mut scratch.places);
    scratch.write_forwarding(event, endpoint, &forwarding);
    text.extend_from_slice(scratch.line.text())?;
    put_layers(text, &mut sheet.lines, values, &sheet.layers, is_left)
}

/// Puts the lines of the layers of a packet to the text, and the one that tells of a checksum left to the card.
fn put_layers(
    text: &mut Vec<u8>,
    lines: &mut Lines,
    values: Values,
    layers: &Layers,
    is_left: bool,
) -> Result<(), AllocError>
    ensures { OnOk result (text.new.items ≡ text.old.items ++ (layers_text values layers.now ++ card_line is_left)) }
{
    write_layers(lines, values, layers);
    text.extend_from_slice(lines.text())?;
    text.extend_from_slice(card_line(is_left))
}

/// Whether a packet is no longer taken apart since its sender left its checksum to the network card.
fn is_left_at(stop: Stop, under: &Overlay, octets: &[u8]) -> bool
    ensures { result ≡ is_left_at under.now octets.now stop }
{
    matches!(stop, Stop::At(Reason::BadUdpSum))
        && !under.settings().partial
        && is_left_to_card(octets)
}

/// The line that tells so, or none.
fn card_line(is_left: bool) -> &'static [u8]
    ensures { result.now ≡ card_line is_left }
{
    if is_left {
        b"  udp checksum left to the card\n"
    } else {
        b""
    }
}

/// Puts an event, which is a packet, to the endpoint, and what comes of it to the text.
fn put_event<'a>(
    text: &mut Vec<u8>,
    endpoint: &mut Endpoint,
    scratch: &mut Scratch,
    sheet: &mut Sheet<'a>,
    depth: usize,
    values: Values,
    event: &Event<'a>,
) -> Result<(), AllocError>
    requires low { 1 ≤ depth }
    requires high { depth ≤ 4 }
    requires time { (state_of endpoint.old).moment ≤ event.now.moment }
    requires known { IsEventOf 0 0 event.now }
    ensures state { state_of endpoint.new ≡ after (state_of endpoint.old) (event_of [] event.now) }
    ensures text { OnOk result (text.new.items
        ≡ text.old.items ++ text_at depth values scratch.old.number (state_of endpoint.old) event.now) }
    ensures number { scratch.new.number ≡ scratch.old.number }
{
    match &event.happening {
        Happening::Record(Tap::Underlay, captured) => put_packet(
            text,
            endpoint,
            scratch,
            sheet,
            depth,
            values,
            event,
            captured.original,
            captured.octets,
        ),
        // There are no changes and no ports.
        _ => unreachable!(),
    }
}

/// Puts all packets to an endpoint, and what comes of them to the text.
fn put_events<'a>(
    text: &mut Vec<u8>,
    endpoint: &mut Endpoint,
    scratch: &mut Scratch,
    sheet: &mut Sheet<'a>,
    depth: usize,
    values: Values,
    events: &[Event<'a>],
) -> Result<(), AllocError>
    requires low { 1 ≤ depth }
    requires high { depth ≤ 4 }
    requires first { scratch.old.number ≡ 0 }
    requires rising { IsRising (state_of endpoint.old).moment events.now }
    requires known { AllByRecursion (IsEventOf 0 0) events.now }
    ensures { OnOk result (text.new.items ≡ text.old.items ++ texts_from depth values 0 (state_of endpoint.old) events.now) }
{
    for event in events {
        scratch.number.add_one();
        put_event(text, endpoint, scratch, sheet, depth, values, event)?;
    }
    Ok(())
}

/// Puts the lines of the captures that are cut.
fn put_cuts(text: &mut Vec<u8>, line: &mut Line, cuts: &[Cut]) -> Result<(), AllocError>
    ensures { OnOk result (text.new.items ≡ text.old.items ++ flat_map cut_line cuts.now) }
{
    for cut in cuts {
        line.write_cut(cut);
        text.extend_from_slice(line.text())?;
    }
    Ok(())
}
