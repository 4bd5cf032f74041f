//! Numbers of records by place.
ghost use Rattle.std.specs.Prelude.{◌≡◌, ◌≢◌, ◌<◌, ◌+◌, ◌-◌, ◌^◌, min};
ghost use Rattle.timeline.specs.declared.source.Tap.{Tap as ATap};
ghost use Rattle.timeline.specs.declared.source.Tap.TheVariants.{Port};
ghost use Rattle.part_record.specs.Counts.{HasCount, records_at};

use crate::facts::MOST_PORTS;
use timeline::Tap;

/// How many records there are of each capture: of 255 ports, and of the underlay. Each count ends at 2^64 - 1.
#[derive(Clone, Copy, Debug, Default)]
pub struct RecordCounts {
    ports: [u64; MOST_PORTS],
    underlay: u64,
}

impl RecordCounts {
    /// None of any.
    pub fn new() -> RecordCounts
        ensures { (tap : ATap) → records_at result tap ≡ 0 }
    {
        RecordCounts {
            ports: [0; MOST_PORTS],
            underlay: 0,
        }
    }

    /// Counts one more record of a capture. Port 0, which no capture is of, has no count.
    pub fn count(&mut self, tap: Tap)
        ensures more { HasCount tap → records_at self.new tap ≡ min (2 ^ 64 - 1) (records_at self.old tap + 1) }
        ensures others { (other : ATap) → other ≢ tap → records_at self.new other ≡ records_at self.old other }
    {
        match tap {
            Tap::Underlay => self.underlay = self.underlay.saturating_add(1),
            Tap::Port(number) => self.count_port(number),
        }
    }

    /// The same of a port's.
    fn count_port(&mut self, number: u8)
        ensures more { HasCount (Port number)
            → records_at self.new (Port number) ≡ min (2 ^ 64 - 1) (records_at self.old (Port number) + 1) }
        ensures others { (other : ATap) → other ≢ Port number → records_at self.new other ≡ records_at self.old other }
    {
        if number == 0 {
            return;
        }
        let index = usize::from(number - 1);
        if index < MOST_PORTS {
            self.ports[index] = self.ports[index].saturating_add(1);
        }
    }

    /// How many records there are of a capture: of port 0 none.
    pub fn records(&self, tap: Tap) -> u64
        ensures { result ≡ records_at self.now tap }
    {
        match tap {
            Tap::Underlay => self.underlay,
            Tap::Port(0) => 0,
            Tap::Port(number) => self
                .ports
                .get(usize::from(number - 1))
                .copied()
                .unwrap_or(0),
        }
    }
}
