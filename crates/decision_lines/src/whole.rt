//! Whole decision lines.
ghost use Rattle.std.specs.Prelude.{◌≡◌, ◌≤◌, ◌+◌, ◌++◌, length, map, IsSome, IsTrue, None};
ghost use Rattle.std.specs.List.{list_all};
ghost use Rattle.wire.specs.First.{fault_of};
ghost use Rattle.endpoint_core.specs.Settings.{segment_at};
ghost use Rattle.endpoint_core.specs.StateStep.{can_leave};
ghost use Rattle.endpoint_core.specs.Decision.{refused_as};
ghost use Rattle.endpoint_core.specs.Kept.{state_of};
ghost use Rattle.endpoint_core.specs.Step.{Decided, Replied, has_two_tunnels, sent_at};
ghost use Rattle.endpoint_core.specs.Text.{outcome_text, outcomes_text};
ghost use Rattle.decision_lines.specs.Lines.{answer_text, cut_line, line};
ghost use Rattle.decision_lines.specs.Outcomes.{gap};

use crate::counter::Counter;
use crate::line::Line;
use endpoint_core::{Arrival, ChangeFault, Endpoint};
use filter_db::Place;
use timeline::{Cut, Event};
use wire::ether::{Refused, Vid};

impl Line {
    /// Writes the line of a frame or a packet that is dropped, which is the event of this number.
    #[inline(always)]
    pub fn write_drop(&mut self, number: &Counter, event: &Event, refused: Refused)
        ensures { self.new ≡ line number.now event.now (answer_text None (Decided (refused_as refused))) }
    {
        self.begin(number, event, refused.segment);
        self.put_drop(refused.reason);
        self.end();
    }

    /// Writes the line of a change, which is the event of this number, with the segment that it names and what it was
    /// answered.
    pub fn write_reply(
        &mut self,
        number: &Counter,
        event: &Event,
        named: Option<Vid>,
        reply: Result<(), ChangeFault>,
    )
        ensures { self.new ≡ line number.now event.now (answer_text named (Replied (fault_of reply))) }
    {
        self.begin(number, event, named);
        self.put_reply(reply);
        self.end();
    }

    /// Writes the line of a capture that ends with a cut rest.
    pub fn write_cut(&mut self, cut: &Cut)
        ensures { self.new ≡ cut_line cut.now }
    {
        self.clear();
        self.put_text(b"cut ");
        self.put_tap(cut.tap);
        self.put_octet(b' ');
        self.put_number(cut.whole);
        self.end();
    }

    /// Puts what comes of a place, behind a space where it isn't the first. What leaves there is only measured.
    pub fn put_sized(
        &mut self,
        endpoint: &Endpoint,
        came: &Arrival,
        is_first: bool,
        two_tunnels: bool,
        place: Place,
    )
        requires leave { IsTrue (can_leave (state_of endpoint.now).bridges.settings came.now.vid place) }
        requires room { length self.old + 77 ≤ 65536 }
        ensures text { let S = (state_of endpoint.now).bridges.settings in
            self.new ≡ self.old ++ (gap is_first ++ outcome_text two_tunnels (sent_at S came.now.vid came.now.frame place)) }
        ensures len { length self.new ≤ length self.old + 77 }
    {
        let count = endpoint.size_at(came, place);
        self.put_counted(is_first, two_tunnels, place, count);
    }

    /// Puts what comes of each place, with one space between two.
    pub(crate) fn put_outcomes(&mut self, endpoint: &Endpoint, came: &Arrival, places: &[Place])
        requires there { IsSome (segment_at (state_of endpoint.now).bridges.settings came.now.vid) }
        requires leave { IsTrue (list_all (can_leave (state_of endpoint.now).bridges.settings came.now.vid) places.now) }
        requires few { length places.now ≤ 767 }
        requires room { length self.old + 59059 ≤ 65536 }
        ensures text { let S = (state_of endpoint.now).bridges.settings in
            self.new ≡ self.old
            ++ outcomes_text (has_two_tunnels S.overlay came.now.vid) (map (sent_at S came.now.vid came.now.frame) places.now) }
        ensures len { length self.new ≤ length self.old + 59059 }
    {
        let two_tunnels = endpoint.has_two_tunnels(came);
        let mut is_first = true;
        for place in places {
            self.put_sized(endpoint, came, is_first, two_tunnels, *place);
            is_first = false;
        }
    }
}
