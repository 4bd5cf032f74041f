//! What a run lends to each step.
ghost use Rattle.std.specs.Prelude.{◌≡◌, [], None};
ghost use Rattle.endpoint_core.specs.Forwarding.{CanLeave, IsThere, decision_of};
ghost use Rattle.endpoint_core.specs.Kept.{state_of};
ghost use Rattle.endpoint_core.specs.Step.{Decided};
ghost use Rattle.decision_lines.specs.Lines.{answer_text, line};

use crate::counter::Counter;
use crate::line::Line;
use endpoint_core::{Endpoint, Forwarding, Head, Outlets};
use timeline::Event;

/// What a run lends to each of its steps. It is made once for a run, so that no step makes a list or asks for memory.
#[derive(Drop)]
pub struct Scratch {
    /// The number of the event that is dealt with, 0 before the first.
    pub number: Counter,
    /// Where its frame leaves.
    pub places: Outlets,
    /// The outer headers of one emission.
    pub head: Head,
    /// Its decision line.
    pub line: Line,
}

impl Scratch {
    /// An empty one, before the first event.
    #[inline(never)]
    pub fn new() -> Scratch
        ensures number { result.number ≡ 0 }
        ensures line { result.line ≡ [] }
    {
        Scratch {
            number: Counter::new(),
            places: Outlets::new(),
            head: Head::new(),
            line: Line::new(),
        }
    }

    /// Writes the line of a frame or a packet that the endpoint took just now, where it goes being told by a forwarding and
    /// the places. What leaves is only measured.
    pub fn write_forwarding(&mut self, event: &Event, endpoint: &Endpoint, forwarding: &Forwarding)
        requires there { IsThere (state_of endpoint.now).bridges.settings forwarding.now }
        requires leave { CanLeave (state_of endpoint.now).bridges.settings forwarding.now self.old.places.items }
        ensures line { self.new.line ≡ line self.old.number event.now
            (answer_text None (Decided (decision_of (state_of endpoint.now).bridges.settings forwarding.now self.old.places.items))) }
        ensures number { self.new.number ≡ self.old.number }
    {
        match forwarding {
            Err(refused) => self.line.write_drop(&self.number, event, *refused),
            Ok(came) => {
                self.line.begin(&self.number, event, Some(came.segment()));
                self.line
                    .put_outcomes(endpoint, came, self.places.as_slice());
                self.line.end();
            }
        }
    }
}
