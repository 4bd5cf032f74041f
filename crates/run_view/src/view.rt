//! Whoever writes the view of a run.
ghost use Rattle.std.specs.Prelude.{◌≡◌, [], IfOk, false};
ghost use Rattle.wire.specs.First.{fault_of};
ghost use Rattle.endpoint_core.specs.Forwarding.{CanLeave, IsShortFrame, IsThere, decision_of};
ghost use Rattle.endpoint_core.specs.Kept.{state_of};
ghost use Rattle.endpoint_core.specs.Step.{Decided, Replied};
ghost use Rattle.decision_objects.specs.Writing.{Tells};
ghost use Rattle.run_view.specs.Blocks.{item_text, text_of};
ghost use Rattle.run_view.specs.Onlooking.{IsStill, Shows};
ghost use Rattle.run_view.specs.View.{items_of, cut_item, seen_of};

use crate::output::ViewOutput;
use crate::seen::Seen;
use endpoint_core::{ChangeFault, Endpoint, Forwarding};
use filter_db::Place;
use overlay::settings::TimedChange;
use pcap::stream::Output;
use std::alloc::{AllocError, Global};
use std::marker::Model;
use stream_run::Watch;
use timeline::{Cut, Event, Happening, Tap};

/// How many numbers a place could have.
const PLACES: usize = 256;

/// Whoever looks on at a run and writes its view, seen by contracts as what was told to the output, and the event that was seen
/// last. The head is written in front of the first event, and where none comes at the end. A write that fails stops nothing, but
/// behind it nothing more is written.
#[derive(Drop)]
pub struct View<'c, W: Output> {
    output: ViewOutput<W>,
    is_begun: bool,
    ports: u8,
    /// Those of the run, for the segments that they name.
    changes: &'c [TimedChange],
    seen: Seen,
    /// How many records came at each place, by its number; those of the underlay at 0.
    records: [u64; PLACES],
}

impl<'c, W: Output> Model for View<'c, W> {
    ghost use Rattle.run_view.specs.Onlooking.{View};

    ghost Value = { View };

    ghost view = { λ v. record {
      told = v.output;
      is_begun = v.is_begun;
      ports = v.ports;
      changes = v.changes.now;
      seen = v.seen;
    } };
}

impl<'c, W: Output> View<'c, W> {
    /// One for a run on so many ports and with these changes, that goes on where an output stands. It writes nothing yet.
    /// `AllocError`: there was no room for a record.
    pub fn new(
        alloc: Global,
        output: W,
        ports: u8,
        changes: &'c [TimedChange],
    ) -> Result<View<'c, W>, AllocError>
    where
        W: Drop,
        ensures told { IfOk result (λ made. made.told
            ≡ record { written = W.written output; failures = W.failures output; is_failed = false }) }
        ensures begun { IfOk result (λ made. made.is_begun ≡ false) }
        ensures ports { IfOk result (λ made. made.ports ≡ ports) }
        ensures changes { IfOk result (λ made. made.changes ≡ changes.entry.now) }
    {
        let seen = Seen::nothing(alloc)?;
        let output = ViewOutput::new(alloc, output)?;
        Ok(View {
            output,
            is_begun: false,
            ports,
            changes,
            seen,
            records: [0; PLACES],
        })
    }

    /// Writes the block of a capture that ends with a cut rest, at the moment of the event that was seen last.
    pub fn cut(&mut self, cut: &Cut)
        ensures told { Tells self.old.told self.new.told (item_text (cut_item self.old.seen.origin.moment cut.now)) }
        ensures still { IsStill self.old self.new }
    {
        self.output.write_cut(self.seen.origin.moment, cut);
    }

    /// How many records came at a place, those that were passed over with them, up to 2^64 - 1.
    pub fn records(&self, tap: Tap) -> u64 {
        self.records[usize::from(number_of(tap))]
    }

    /// Whether a write failed, or took none of some octets: then not all blocks were written.
    pub fn is_failed(&self) -> bool
        ensures { result ≡ self.now.told.is_failed }
    {
        self.output.is_failed()
    }

    /// The output.
    pub fn into_output(self) -> W
        ensures written { W.written result ≡ self.entry.told.written }
        ensures failures { W.failures result ≡ self.entry.told.failures }
    {
        let View { output, .. } = self;
        output.into_output()
    }
}

impl<'c, W: Output> Watch for View<'c, W> {
    ghost use Rattle.run_view.specs.Onlooking.{Ends, Expects, Sees};

    ghost sees = { Sees };

    ghost expects = { Expects };

    ghost ends = { Ends };

    #[inline]
    fn see(&mut self, _endpoint: &Endpoint, number: u64, event: &Event, _came: &Forwarding) {
        self.expect(number, event);
    }

    #[inline]
    fn hear_decision(&mut self, endpoint: &Endpoint, forwarding: &Forwarding, places: &[Place]) {
        self.write_decision(endpoint, forwarding, places);
    }

    fn hear_reply(&mut self, reply: Result<(), ChangeFault>) {
        self.write_reply(reply);
    }

    #[inline]
    fn pass_over(&mut self, _endpoint: &Endpoint, _number: u64, event: &Event) {
        self.count(event);
    }

    fn end(&mut self, _endpoint: &Endpoint) {
        self.begin();
    }
}

impl<'c, W: Output> View<'c, W> {
    /// Keeps an event, behind the head.
    #[inline]
    fn expect(&mut self, number: u64, event: &Event)
        ensures shows { Shows self.old [] self.new }
        ensures seen { self.new.seen ≡ seen_of self.old.ports self.old.changes number event.now }
    {
        self.begin();
        self.count(event);
        self.seen.keep(self.ports, self.changes, number, event);
    }

    /// Writes the head, where it isn't written yet.
    #[inline]
    fn begin(&mut self)
        ensures shows { Shows self.old [] self.new }
        ensures seen { self.new.seen ≡ self.old.seen }
    {
        if self.is_begun {
            return;
        }
        self.output.write_head(self.ports);
        self.is_begun = true;
    }

    /// Counts the record of an event.
    #[inline]
    fn count(&mut self, event: &Event)
        ensures { self.new ≡ self.old }
    {
        if let Happening::Record(tap, _) = &event.happening {
            let place = usize::from(number_of(*tap));
            self.records[place] = self.records[place].saturating_add(1);
        }
    }

    /// Writes the blocks of a frame or a packet that was taken.
    #[inline]
    fn write_decision(&mut self, endpoint: &Endpoint, forwarding: &Forwarding, places: &[Place])
        requires there { IsThere (state_of endpoint.now).bridges.settings forwarding.now }
        requires short { IsShortFrame forwarding.now }
        requires leave { CanLeave (state_of endpoint.now).bridges.settings forwarding.now places.now }
        ensures told { let S = (state_of endpoint.now).bridges.settings in
            Tells self.old.told self.new.told
            (text_of (items_of self.old.ports self.old.seen (Decided (decision_of S forwarding.now places.now)))) }
        ensures still { IsStill self.old self.new }
    {
        match forwarding {
            Ok(came) => self
                .output
                .write_sent(self.ports, &self.seen, endpoint, came, places),
            Err(refused) => self.output.write_drop(self.ports, &self.seen, *refused),
        }
    }

    /// Writes the block of a change that was made or refused.
    fn write_reply(&mut self, reply: Result<(), ChangeFault>)
        ensures told { Tells self.old.told self.new.told
            (text_of (items_of self.old.ports self.old.seen (Replied (fault_of reply)))) }
        ensures still { IsStill self.old self.new }
    {
        self.output.write_reply(self.ports, &self.seen, reply);
    }
}

/// The number of a place: that of a port, and 0 for the underlay.
#[inline]
fn number_of(tap: Tap) -> u8 {
    match tap {
        Tap::Port(port) => port,
        Tap::Underlay => 0,
    }
}
