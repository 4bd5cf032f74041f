//! A frame that came to a segment, as a window is told of it.
ghost use Rattle.std.specs.Prelude.{◌≡◌, ℕ, Ok};
ghost use Rattle.both_ways.specs.Outlets.{kept_outlets};
ghost use Rattle.both_ways.specs.Sieve.{window_with};
ghost use Rattle.both_ways.specs.Told.{awaiting, brought, text_of};
ghost use Rattle.echo_window.specs.Laid.{told as record_told};
ghost use Rattle.endpoint_core.specs.Arrival.{Arrival as Entered};

use crate::outlets::Outlets;
use echo_window::{FrameText, PlaceSet, Record, Window};
use endpoint_core::Forwarding;
use overlay::ports::PortSet;
use timeline::Event;

/// Tells a window of a frame that came in at a port with an event, whose octets without tag are these, if it came to a segment, with
/// the ports by which it may leave. Where it may leave by none, there is nothing to tell.
#[inline]
pub(crate) fn enter_frame(
    window: &mut Window,
    outlets: &mut Outlets,
    ports: &PortSet,
    port: u8,
    event: &Event,
    came: &Forwarding,
    text: &FrameText,
)
    requires { (x : Entered) → came.now ≡ Ok x → text.now ≡ text_of x.frame }
    ensures window { window.new ≡ window_with window.old (brought (kept_outlets outlets.old ports.now) port event.now.moment
        event.now.number came.now) }
    ensures outlets { (vid : ℕ) → kept_outlets outlets.new ports.now vid ≡ kept_outlets outlets.old ports.now vid }
{
    let Ok(arrival) = came else {
        return;
    };
    let awaited = outlets.from_place(ports, arrival.segment(), port);
    enter(window, port, event, text, &awaited);
}

/// The same of a frame that a packet at the underlay brought.
#[inline]
pub(crate) fn enter_packet(
    window: &mut Window,
    outlets: &mut Outlets,
    ports: &PortSet,
    event: &Event,
    came: &Forwarding,
)
    ensures window { window.new ≡ window_with window.old (brought (kept_outlets outlets.old ports.now) 0 event.now.moment
        event.now.number came.now) }
    ensures outlets { (vid : ℕ) → kept_outlets outlets.new ports.now vid ≡ kept_outlets outlets.old ports.now vid }
{
    let Ok(arrival) = came else {
        return;
    };
    let awaited = outlets.from_place(ports, arrival.segment(), 0);
    let frame = arrival.frame();
    let text = FrameText::new(frame.addresses, frame.body);
    enter(window, 0, event, &text, &awaited);
}

/// Tells a window of a frame that came in at a place, if it may be met again anywhere.
#[inline(always)]
fn enter(window: &mut Window, place: u8, event: &Event, text: &FrameText, awaited: &PlaceSet)
    ensures { window.new
        ≡ window_with window.old (awaiting place event.now.moment event.now.number text.now awaited.now) }
{
    if awaited.is_empty() {
        return;
    }
    window.enter(&record_of(place, event, text, awaited));
}

/// A frame that came in at a place, as a window is told of it.
#[inline(always)]
fn record_of<'a>(
    place: u8,
    event: &Event,
    frame: &'a FrameText<'a>,
    awaited: &'a PlaceSet,
) -> Record<'a>
    ensures { let e = event.now in record_told result
        ≡ record { place = place; number = e.number; moment = e.moment; frame = frame.now; awaited = awaited.now } }
{
    Record {
        place,
        number: event.number,
        moment: event.moment,
        frame,
        awaited,
    }
}
