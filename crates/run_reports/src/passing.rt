//! The addresses of an event's frame, and where it goes.
ghost use Rattle.std.specs.Prelude.{◌≡◌, IfSome, option_map};
ghost use Rattle.std.specs.Ordering.{eq_by_cmp};
ghost use Rattle.filter_db.specs.Table.{mac_cmp};
ghost use Rattle.endpoint_core.specs.Forwarding.{CanLeave, decision_of};
ghost use Rattle.endpoint_core.specs.Kept.{state_of};
ghost use Rattle.run_reports.specs.Sought.{foreseen, passing_at, passing_by, passing_of, same_tap};

use endpoint_core::{Endpoint, Forwarding, Outlets};
use event_story::can_come;
use timeline::{Event, Happening, Tap};
use wire::ether::{EtherView, Mac};

/// Where a frame came, and its addresses.
#[derive(Clone, Copy)]
pub struct Passing {
    pub tap: Tap,
    pub destination: Mac,
    pub source: Mac,
}

/// Where the frame of an event came, and its addresses: that of a port as it is, that of a packet where it comes to a segment.
pub fn passing_of(endpoint: &Endpoint, event: &Event) -> Option<Passing>
    ensures { result ≡ passing_of (state_of endpoint.now) event.now.happening }
{
    match &event.happening {
        Happening::Change(_) => None,
        Happening::Record(Tap::Port(port), captured) => {
            passing_at(Tap::Port(*port), captured.octets)
        }
        Happening::Record(Tap::Underlay, captured) => {
            let came = endpoint.frame_in(captured.original, captured.octets);
            passing_by(&came)
        }
    }
}

/// The addresses of a frame.
fn passing_at(tap: Tap, octets: &[u8]) -> Option<Passing>
    ensures { result ≡ passing_at tap octets.now }
{
    match EtherView::read(octets) {
        Ok(view) => Some(Passing {
            tap,
            destination: view.dst(),
            source: view.src(),
        }),
        Err(_) => None,
    }
}

/// The addresses of the frame that a packet brings.
fn passing_by(forwarding: &Forwarding) -> Option<Passing>
    ensures { result ≡ passing_by forwarding.now }
{
    match forwarding {
        Ok(came) => Some(Passing {
            tap: Tap::Underlay,
            destination: came.frame().dst(),
            source: came.frame().src(),
        }),
        Err(_) => None,
    }
}

/// Whether two taps are one.
pub fn same_tap(a: Tap, b: Tap) -> bool
    ensures { result ≡ same_tap a b }
{
    match (a, b) {
        (Tap::Port(a), Tap::Port(b)) => a == b,
        (Tap::Underlay, Tap::Underlay) => true,
        _ => false,
    }
}

/// Whether two addresses are one.
pub fn same_address(left: Mac, right: Mac) -> bool
    ensures { result ≡ eq_by_cmp mac_cmp left right }
{
    left == right
}

/// Where an event that comes to an endpoint goes, with the places in a list that is written over; the endpoint stays as it is.
/// Nothing, where it can't come, and of a change.
pub fn foreseen<'a>(
    endpoint: &Endpoint,
    event: &Event<'a>,
    places: &mut Outlets,
) -> Option<Forwarding<'a>>
    ensures decision { let S = (state_of endpoint.now).bridges.settings in
        option_map (λ forwarding. decision_of S forwarding places.new.items) result ≡ foreseen (state_of endpoint.now) event.now }
    ensures leave { IfSome result (λ forwarding. CanLeave (state_of endpoint.now).bridges.settings forwarding places.new.items) }
{
    if !can_come(endpoint, event) {
        return None;
    }
    match &event.happening {
        Happening::Change(_) => None,
        Happening::Record(Tap::Port(port), captured) => {
            let (original, octets) = (captured.original, captured.octets);
            Some(endpoint.forwarding_of_frame(event.moment, *port, original, octets, places))
        }
        Happening::Record(Tap::Underlay, captured) => {
            let (original, octets) = (captured.original, captured.octets);
            Some(endpoint.forwarding_of_packet(event.moment, original, octets, places))
        }
    }
}
