//! What is kept of an event until it is answered.
ghost use Rattle.std.specs.Prelude.{◌≡◌};
ghost use Rattle.decision_objects.specs.Onlooking.{named_in};
ghost use Rattle.run_view.specs.View.{interface_of, octets_of, original_of, seen_of};

use crate::record::Record;
use decision_objects::Origin;
use overlay::settings::TimedChange;
use std::alloc::{AllocError, Global};
use timeline::{Event, Happening, Source, Tap};
use wire::ether::Vid;

/// What is kept of an event until it is answered.
#[derive(Drop)]
pub struct Seen {
    pub origin: Origin,
    /// The segment that it names as a change.
    pub named: Option<Vid>,
    /// That of the place where it came, from 0.
    pub interface: u32,
    /// How many octets its frame had.
    pub original: u32,
    /// Those that were captured.
    pub octets: Record,
}

impl Seen {
    /// Before the first event.
    pub(crate) fn nothing(alloc: Global) -> Result<Seen, AllocError> {
        let octets = Record::new(alloc)?;
        Ok(Seen {
            origin: Origin {
                event: 0,
                moment: 0,
                source: Source::Changes,
                number: 0,
            },
            named: None,
            interface: 0,
            original: 0,
            octets,
        })
    }

    /// Keeps the event of this number, in a run on so many ports and with these changes.
    #[inline]
    pub(crate) fn keep(&mut self, ports: u8, changes: &[TimedChange], number: u64, event: &Event)
        ensures { self.new ≡ seen_of ports changes.now number event.now }
    {
        self.origin = Origin::of(number, event);
        self.named = named_in(changes, event);
        self.interface = interface_of(ports, event.source());
        self.original = original_of(event);
        self.octets.copy(octets_of(event));
    }
}

/// How many octets the frame of an event had.
#[inline]
fn original_of(event: &Event) -> u32
    ensures { result ≡ original_of event.now.happening }
{
    match &event.happening {
        Happening::Record(_, captured) => captured.original,
        Happening::Change(_) => 0,
    }
}

/// Those of them that were captured.
#[inline]
fn octets_of<'a>(event: &Event<'a>) -> &'a [u8]
    ensures { result.now ≡ octets_of event.now.happening }
{
    match &event.happening {
        Happening::Record(_, captured) => captured.octets,
        Happening::Change(_) => &[],
    }
}

/// The interface of a source.
#[inline]
fn interface_of(ports: u8, source: Source) -> u32
    ensures { result ≡ interface_of ports source }
{
    match source {
        Source::Tap(Tap::Port(port)) => u32::from(port.saturating_sub(1)),
        Source::Tap(Tap::Underlay) | Source::Changes => u32::from(ports),
    }
}

/// The segment that an event names as a change.
#[inline]
fn named_in(changes: &[TimedChange], event: &Event) -> Option<Vid>
    ensures { result ≡ named_in changes.now event.now }
{
    match &event.happening {
        Happening::Record(..) => None,
        Happening::Change(index) => match changes.get(*index) {
            Some(timed) => timed.change.vid(),
            None => None,
        },
    }
}
