//! Whoever writes an object for each event.
ghost use Rattle.std.specs.Prelude.{◌≡◌, None, false};
ghost use Rattle.wire.specs.First.{fault_of};
ghost use Rattle.endpoint_core.specs.Forwarding.{CanLeave, IsThere, decision_of};
ghost use Rattle.endpoint_core.specs.Kept.{state_of};
ghost use Rattle.endpoint_core.specs.Step.{Decided, Replied};
ghost use Rattle.decision_objects.specs.Objects.{cut_object, object_text};
ghost use Rattle.decision_objects.specs.Onlooking.{expecting, named_in};
ghost use Rattle.decision_objects.specs.Writing.{Tells};

use crate::origin::Origin;
use crate::output::ObjectOutput;
use endpoint_core::{ChangeFault, Endpoint, Forwarding};
use filter_db::Place;
use overlay::settings::TimedChange;
use pcap::stream::Output;
use std::marker::Model;
use stream_run::Watch;
use timeline::{Cut, Event, Happening, Source, Tap};
use wire::ether::Vid;

/// How many numbers a place could have.
const PLACES: usize = 256;

/// Whoever looks on at a run and writes an object for each event that is told, seen by contracts as what was told to the output,
/// and where the event seen last stands. A write that fails stops nothing, but behind it nothing more is written.
#[derive(Drop)]
pub struct Objects<'c, W: Output> {
    objects: ObjectOutput<W>,
    /// Those of the run, for the segments that they name.
    changes: &'c [TimedChange],
    origin: Origin,
    named: Option<Vid>,
    /// How many records came at each place, by its number; those of the underlay at 0.
    records: [u64; PLACES],
}

impl<'c, W: Output> Model for Objects<'c, W> {
    ghost use Rattle.decision_objects.specs.Onlooking.{Objects};

    ghost Value = { Objects };

    ghost view = { λ o. record { told = o.objects.told; changes = o.changes.now; origin = o.origin; named = o.named } };
}

impl<'c, W: Output> Objects<'c, W> {
    /// One for a run with these changes, that goes on where an output stands. It writes nothing yet.
    pub fn new(output: W, changes: &'c [TimedChange]) -> Objects<'c, W>
        ensures told { result.told ≡ record { written = W.written output; failures = W.failures output; is_failed = false } }
        ensures changes { result.changes ≡ changes.entry.now }
    {
        Objects {
            objects: ObjectOutput::new(output),
            changes,
            origin: Origin {
                event: 0,
                moment: 0,
                source: Source::Changes,
                number: 0,
            },
            named: None,
            records: [0; PLACES],
        }
    }

    /// Writes the object of a capture that ends with a cut rest.
    pub fn cut(&mut self, cut: &Cut)
        ensures told { Tells self.old.told self.new.told (cut_object cut.now) }
        ensures changes { self.new.changes ≡ self.old.changes }
    {
        self.objects.write_cut(cut);
    }

    /// How many records came at a place, those that were passed over with them, up to 2^64 - 1.
    pub fn records(&self, tap: Tap) -> u64 {
        self.records[usize::from(number_of(tap))]
    }

    /// Whether a write failed, or took none of some octets: then not all objects were written.
    pub fn is_failed(&self) -> bool
        ensures { result ≡ self.now.told.is_failed }
    {
        self.objects.is_failed()
    }

    /// The output.
    pub fn into_output(self) -> W
        ensures written { W.written result ≡ self.entry.told.written }
        ensures failures { W.failures result ≡ self.entry.told.failures }
    {
        let Objects { objects, .. } = self;
        objects.into_output()
    }
}

impl<'c, W: Output> Watch for Objects<'c, W> {
    ghost use Rattle.std.specs.Prelude.{◌≡◌};
    ghost use Rattle.decision_objects.specs.Onlooking.{Expects, Sees};

    ghost sees = { Sees };

    ghost expects = { Expects };

    ghost ends = { λ old state new. new ≡ old };

    #[inline]
    fn see(&mut self, _endpoint: &Endpoint, number: u64, event: &Event, _came: &Forwarding) {
        self.expect(number, event);
    }

    fn hear_decision(&mut self, endpoint: &Endpoint, forwarding: &Forwarding, places: &[Place]) {
        self.write_decision(endpoint, forwarding, places);
    }

    fn hear_reply(&mut self, reply: Result<(), ChangeFault>) {
        self.write_reply(reply);
    }

    #[inline]
    fn pass_over(&mut self, _endpoint: &Endpoint, _number: u64, event: &Event) {
        self.count(event);
    }

    #[inline]
    fn end(&mut self, _endpoint: &Endpoint) {}
}

impl<'c, W: Output> Objects<'c, W> {
    /// Keeps where an event stands, and which segment it names as a change.
    #[inline]
    fn expect(&mut self, number: u64, event: &Event)
        ensures { self.new ≡ expecting self.old number event.now }
    {
        self.count(event);
        self.origin = Origin::of(number, event);
        self.named = named_in(self.changes, event);
    }

    /// Counts the record of an event.
    #[inline]
    fn count(&mut self, event: &Event)
        ensures { self.new ≡ self.old }
    {
        if let Happening::Record(tap, _) = &event.happening {
            let place = usize::from(number_of(*tap));
            self.records[place] = self.records[place].saturating_add(1);
        }
    }

    /// Writes the object of a frame or a packet that was taken.
    fn write_decision(&mut self, endpoint: &Endpoint, forwarding: &Forwarding, places: &[Place])
        requires there { IsThere (state_of endpoint.now).bridges.settings forwarding.now }
        requires leave { CanLeave (state_of endpoint.now).bridges.settings forwarding.now places.now }
        ensures told { let S = (state_of endpoint.now).bridges.settings in
            Tells self.old.told self.new.told
            (object_text self.old.origin self.old.named (Decided (decision_of S forwarding.now places.now))) }
        ensures changes { self.new.changes ≡ self.old.changes }
    {
        match forwarding {
            Ok(came) => self
                .objects
                .write_sent(&self.origin, endpoint, came, places),
            Err(refused) => self.objects.write_drop(&self.origin, *refused),
        }
    }

    /// Writes the object of a change that was made or refused.
    fn write_reply(&mut self, reply: Result<(), ChangeFault>)
        ensures told { Tells self.old.told self.new.told (object_text self.old.origin self.old.named (Replied (fault_of reply))) }
        ensures changes { self.new.changes ≡ self.old.changes }
    {
        self.objects.write_reply(&self.origin, self.named, reply);
    }
}

/// The number of a place: that of a port, and 0 for the underlay.
#[inline]
fn number_of(tap: Tap) -> u8 {
    match tap {
        Tap::Port(port) => port,
        Tap::Underlay => 0,
    }
}

/// The segment that an event names as a change.
#[inline]
fn named_in(changes: &[TimedChange], event: &Event) -> Option<Vid>
    ensures { result ≡ named_in changes.now event.now }
{
    match &event.happening {
        Happening::Record(..) => None,
        Happening::Change(index) => match changes.get(*index) {
            Some(timed) => timed.change.vid(),
            None => None,
        },
    }
}
