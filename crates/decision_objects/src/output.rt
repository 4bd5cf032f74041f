//! An output of objects, with the line in front of it.
//!
//! A line that has no room for one outcome more goes on to the output before that, so that an object may have any number of them.
ghost use Rattle.std.specs.Prelude.{◌≡◌, ◌≤◌, ◌+◌, ◌++◌, [], IsSome, IsTrue, Some, None, false, length, map};
ghost use Rattle.std.specs.List.{list_all};
ghost use Rattle.wire.specs.First.{fault_of};
ghost use Rattle.endpoint_core.specs.Settings.{segment_at};
ghost use Rattle.endpoint_core.specs.StateStep.{can_leave};
ghost use Rattle.endpoint_core.specs.Decision.{refused_as};
ghost use Rattle.endpoint_core.specs.Kept.{state_of};
ghost use Rattle.endpoint_core.specs.Step.{Decided, Replied, has_two_tunnels, sent_at};
ghost use Rattle.decision_objects.specs.Objects.{cut_object, object_text, outcomes_text, sent_object};
ghost use Rattle.decision_objects.specs.Writing.{Grows, Tells};

use crate::object::{begin_sent, end_sent, write_cut, write_drop, write_reply};
use crate::origin::Origin;
use crate::outcome::put_sized;
use decision_lines::{Counter, Line};
use endpoint_core::{Arrival, ChangeFault, Endpoint};
use filter_db::Place;
use pcap::stream::Output;
use std::marker::Model;
use timeline::Cut;
use wire::ether::{Refused, Vid};

/// Up to here in the line an outcome with its comma finds room, and what stands behind the last one: 98 octets and 51.
const LAST_BEGIN: usize = 65536 - 149;

/// An output of objects and the line in which they are put together, seen by contracts as what was told to the output, and the
/// text of the line. Once a write has failed, or took none of some octets, nothing more is written.
#[derive(Drop)]
pub struct ObjectOutput<W: Output> {
    output: W,
    line: Line,
    /// The number of the latest event that was told.
    number: Counter,
    is_failed: bool,
}

impl<W: Output> Model for ObjectOutput<W> {
    ghost use Rattle.decision_objects.specs.Writing.{Stage};

    ghost Value = { Stage };

    ghost view = { λ o. record {
      told = record { written = W.written o.output; failures = W.failures o.output; is_failed = o.is_failed };
      line = o.line;
    } };
}

impl<W: Output> ObjectOutput<W> {
    /// One that goes on where an output stands.
    pub fn new(output: W) -> ObjectOutput<W>
        ensures told { result.told ≡ record { written = W.written output; failures = W.failures output; is_failed = false } }
    {
        ObjectOutput {
            output,
            line: Line::new(),
            number: Counter::new(),
            is_failed: false,
        }
    }

    /// Whether a write failed.
    pub fn is_failed(&self) -> bool
        ensures { result ≡ self.now.told.is_failed }
    {
        self.is_failed
    }

    /// The output.
    pub fn into_output(self) -> W
        ensures written { W.written result ≡ self.told.written }
        ensures failures { W.failures result ≡ self.told.failures }
    {
        let ObjectOutput { output, .. } = self;
        output
    }

    /// Writes the object of what leaves of a frame at each of these places.
    pub fn write_sent(
        &mut self,
        origin: &Origin,
        endpoint: &Endpoint,
        came: &Arrival,
        places: &[Place],
    )
        requires there { IsSome (segment_at (state_of endpoint.now).bridges.settings came.now.vid) }
        requires leave { IsTrue (list_all (can_leave (state_of endpoint.now).bridges.settings came.now.vid) places.now) }
        ensures { let S = (state_of endpoint.now).bridges.settings in
            let outcomes = map (sent_at S came.now.vid came.now.frame) places.now in
            Tells self.old.told self.new.told
            (sent_object origin.now (Some came.now.vid) (has_two_tunnels S.overlay came.now.vid) outcomes) }
    {
        begin_sent(&mut self.line, &mut self.number, origin);
        self.put_outcomes(endpoint, came, places);
        end_sent(&mut self.line, came.segment(), origin.source);
        self.hand_on();
    }

    /// Writes the object of a frame or a packet that is dropped.
    pub fn write_drop(&mut self, origin: &Origin, refused: Refused)
        ensures { Tells self.old.told self.new.told (object_text origin.now None (Decided (refused_as refused))) }
    {
        write_drop(&mut self.line, &mut self.number, origin, refused);
        self.hand_on();
    }

    /// Writes the object of a change, with the segment that it names and what it was answered.
    pub fn write_reply(
        &mut self,
        origin: &Origin,
        named: Option<Vid>,
        reply: Result<(), ChangeFault>,
    )
        ensures { Tells self.old.told self.new.told (object_text origin.now named (Replied (fault_of reply))) }
    {
        write_reply(&mut self.line, &mut self.number, origin, named, reply);
        self.hand_on();
    }

    /// Writes the object of a capture that ends with a cut rest.
    pub fn write_cut(&mut self, cut: &Cut)
        ensures { Tells self.old.told self.new.told (cut_object cut.now) }
    {
        write_cut(&mut self.line, cut);
        self.hand_on();
    }

    /// Puts what comes of each place, with a comma between two.
    fn put_outcomes(&mut self, endpoint: &Endpoint, came: &Arrival, places: &[Place])
        requires there { IsSome (segment_at (state_of endpoint.now).bridges.settings came.now.vid) }
        requires leave { IsTrue (list_all (can_leave (state_of endpoint.now).bridges.settings came.now.vid) places.now) }
        requires room { length self.old.line + 51 ≤ 65536 }
        ensures grows { let S = (state_of endpoint.now).bridges.settings in
            let outcomes = map (sent_at S came.now.vid came.now.frame) places.now in
            Grows self.old self.new (outcomes_text (has_two_tunnels S.overlay came.now.vid) outcomes) }
        ensures room { length self.new.line + 51 ≤ 65536 }
    {
        let two_tunnels = endpoint.has_two_tunnels(came);
        let mut is_first = true;
        for place in places {
            self.make_room();
            put_sized(
                &mut self.line,
                endpoint,
                came,
                is_first,
                two_tunnels,
                *place,
            );
            is_first = false;
        }
    }

    /// Makes room in the line for one outcome and for the end of an object.
    #[inline]
    fn make_room(&mut self)
        ensures grows { Grows self.old self.new [] }
        ensures room { length self.new.line + 149 ≤ 65536 }
    {
        if self.line.text().len() > LAST_BEGIN {
            self.hand_on();
        }
    }

    /// Hands the text of the line on to the output, and empties the line.
    fn hand_on(&mut self)
        ensures told { Tells self.old.told self.new.told self.old.line }
        ensures line { self.new.line ≡ [] }
    {
        if !self.is_failed {
            self.is_failed = self.output.write_all(self.line.text()).is_err();
        }
        self.line.clear();
    }
}
