//! Where an event stands.
ghost use Rattle.std.specs.Prelude.{◌≡◌};
ghost use Rattle.decision_objects.specs.Objects.{origin_of};

use timeline::{Event, Source};

/// Where an event stands: its number in the run, its moment, and its source with its number there.
#[derive(Clone, Copy)]
pub struct Origin {
    /// Of the event in the run, from 1.
    pub event: u64,
    /// Nanoseconds.
    pub moment: u64,
    pub source: Source,
    /// Of the change or record in its source, from 1.
    pub number: u64,
}

impl Origin {
    /// Where the event of this number stands.
    #[inline]
    pub fn of(number: u64, event: &Event) -> Origin
        ensures { result ≡ origin_of number event.now }
    {
        Origin {
            event: number,
            moment: event.moment,
            source: event.source(),
            number: event.number,
        }
    }
}
