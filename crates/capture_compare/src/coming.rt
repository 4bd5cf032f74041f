//! A capture whose records come one after another.
ghost use Rattle.std.specs.Prelude.{◌≡◌, ◌≢◌, ◌≤◌, ◌<◌, ◌+◌, ◌^◌, IfSome, List, None, []};
ghost use Rattle.pcap.specs.Record.{Record as ARecord};
ghost use Rattle.pcap.specs.Source.{New, Stream, most_left};
ghost use Rattle.capture_compare.specs.declared.carried.key.Manner.{Manner as AManner};
ghost use Rattle.capture_compare.specs.Clocked.{latest, on_clock};
ghost use Rattle.capture_compare.specs.Turns.{Fetches, HasLent};

use crate::fault::{CompareFault, Side, source_fault};
use pcap::stream::{Input, Source};

/// A capture whose records come one after another.
#[derive(Clone, Copy)]
pub(crate) struct Coming {
    side: Side,
    /// Nanoseconds that are added to each moment.
    delay: u64,
    /// How many records were fetched.
    fetched: u64,
    /// The moment of the next one on the clock, if there is one: the greatest up to it.
    pub next: Option<u64>,
}

impl Coming {
    /// A capture of which nothing was fetched.
    pub(crate) fn new(side: Side, delay: u64) -> Coming
        ensures { result ≡ record { side = side; delay = delay; fetched = 0; next = None } }
    {
        Coming {
            side,
            delay,
            fetched: 0,
            next: None,
        }
    }

    /// Opens it, and fetches its first record.
    pub(crate) fn open<R: Input>(&mut self, source: &mut Source<R>) -> Result<(), CompareFault>
        requires new { source.old.standing ≡ New }
        requires none { self.old.fetched ≡ 0 }
        requires delay { self.old.delay ≤ 2000000000000000000 }
        ensures fetched { (manner : AManner) → Fetches manner self.old.side self.old.delay source.old source.new [] self.new result }
    {
        if let Err(fault) = source.open() {
            return Err(source_fault(self.side, 1, fault));
        }
        self.fetch(source, 0)
    }

    /// Fetches its next record, behind one that came at this moment.
    pub(crate) fn fetch<R: Input>(
        &mut self,
        source: &mut Source<R>,
        moment: u64,
    ) -> Result<(), CompareFault>
        requires begun { source.old.standing ≢ New }
        requires count { self.old.fetched + 1 < 2 ^ 64 }
        requires delay { self.old.delay ≤ 2000000000000000000 }
        ensures fetched { (manner : AManner) (start : Stream) (rs : List ARecord) → HasLent start source.old rs self.old.fetched
            → moment ≡ latest (on_clock manner self.old.delay rs)
            → Fetches manner self.old.side self.old.delay start source.new rs self.new result }
        ensures less { IfSome self.new.next (λ _. 16 + most_left source.new ≤ most_left source.old) }
    {
        self.next = None;
        if let Err(fault) = source.fill() {
            return Err(source_fault(self.side, self.fetched + 1, fault));
        }
        let Some(record) = source.head() else {
            return Ok(());
        };
        self.fetched += 1;
        self.next = Some((record.moment + self.delay).max(moment));
        Ok(())
    }

    /// Nanoseconds that are added to each moment.
    pub(crate) fn delay(&self) -> u64
        ensures { result ≡ self.now.delay }
    {
        self.delay
    }
}
