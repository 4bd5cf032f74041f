//! Comments and messages, put in a line without its end.
ghost use Rattle.std.specs.Prelude.{◌≡◌, ◌≤◌, ◌∷◌, ◌++◌, List, IsSome, IsTrue, Some, None, Ok, codes, if◌then◌else◌, length, map};
ghost use Rattle.std.specs.List.{list_all};
ghost use Rattle.wire.specs.First.{fault_of};
ghost use Rattle.timeline.specs.Words.{source_of};
ghost use Rattle.endpoint_core.specs.Settings.{segment_at};
ghost use Rattle.endpoint_core.specs.StateStep.{can_leave};
ghost use Rattle.endpoint_core.specs.Decision.{Sent, refused_as};
ghost use Rattle.endpoint_core.specs.Kept.{state_of};
ghost use Rattle.endpoint_core.specs.Step.{Decided, Replied, by_verdict, has_two_tunnels, sent_at};
ghost use Rattle.endpoint_core.specs.Text.{further_text, outcomes_text};
ghost use Rattle.decision_lines.specs.Lines.{front_text, segment_text};
ghost use Rattle.run_view.specs.Blocks.{comment_of, longest_comment};
ghost use Rattle.run_view.specs.Told.{cut_text, left_text, told_text};

use decision_lines::{Counter, Line};
use decision_objects::Origin;
use endpoint_core::{Arrival, ChangeFault, Endpoint};
use filter_db::Place;
use timeline::{Captured, Cut, Event, Happening, Source};
use wire::ether::{Refused, Vid};

/// The octets of a comment at most.
const LONGEST_COMMENT: usize = 65_000;

/// As much of a line as a comment tells.
#[inline(always)]
#[tactic(auto, using(std::proofs::lemmas::List::take_min), unfolding(crate::specs::Blocks::comment_of))]
pub(crate) fn comment(line: &Line) -> &[u8]
    ensures text { result.now ≡ comment_of line.now }
    ensures short { length result.now ≤ 65000 }
{
    let text = line.text();
    &text[..LONGEST_COMMENT.min(text.len())]
}

/// Puts the line of a frame or a packet that is dropped.
#[inline]
pub(crate) fn put_drop(line: &mut Line, number: &mut Counter, origin: &Origin, refused: Refused)
    ensures { line.new ≡ told_text origin.now None (Decided (refused_as refused)) }
{
    put_front(line, number, origin, refused.segment);
    line.put_drop(refused.reason);
}

/// Puts the line of a change, with the segment that it names and what it was answered.
pub(crate) fn put_reply(
    line: &mut Line,
    number: &mut Counter,
    origin: &Origin,
    named: Option<Vid>,
    reply: Result<(), ChangeFault>,
)
    ensures { line.new ≡ told_text origin.now named (Replied (fault_of reply)) }
{
    put_front(line, number, origin, named);
    line.put_reply(reply);
}

/// Puts the line of what leaves of a frame at each of these places, as far as a comment tells it.
#[inline]
pub(crate) fn put_sent(
    line: &mut Line,
    number: &mut Counter,
    origin: &Origin,
    endpoint: &Endpoint,
    came: &Arrival,
    places: &[Place],
)
    requires there { IsSome (segment_at (state_of endpoint.now).bridges.settings came.now.vid) }
    requires leave { IsTrue (list_all (can_leave (state_of endpoint.now).bridges.settings came.now.vid) places.now) }
    ensures { let S = (state_of endpoint.now).bridges.settings in
        comment_of line.new
        ≡ comment_of (told_text origin.now None (Decided (by_verdict S came.now (Ok places.now)))) }
{
    put_front(line, number, origin, Some(came.segment()));
    put_places(line, endpoint, came, places);
}

/// Puts what comes of each place, with a space between two, as far as a comment tells it.
#[inline]
fn put_places(line: &mut Line, endpoint: &Endpoint, came: &Arrival, places: &[Place])
    requires there { IsSome (segment_at (state_of endpoint.now).bridges.settings came.now.vid) }
    requires leave { IsTrue (list_all (can_leave (state_of endpoint.now).bridges.settings came.now.vid) places.now) }
    requires room { length line.old ≤ longest_comment }
    ensures { let S = (state_of endpoint.now).bridges.settings in
        comment_of line.new ≡ comment_of (line.old
        ++ outcomes_text (has_two_tunnels S.overlay came.now.vid) (map (sent_at S came.now.vid came.now.frame) places.now)) }
{
    let two_tunnels = endpoint.has_two_tunnels(came);
    let mut is_first = true;
    for place in places {
        put_place(line, endpoint, came, is_first, two_tunnels, *place);
        is_first = false;
    }
}

/// Puts what comes of a place, behind a space where it isn't the first, unless a comment tells no more.
#[inline]
fn put_place(
    line: &mut Line,
    endpoint: &Endpoint,
    came: &Arrival,
    is_first: bool,
    two_tunnels: bool,
    place: Place,
)
    requires leave { IsTrue (can_leave (state_of endpoint.now).bridges.settings came.now.vid place) }
    requires room { length line.old ≤ 65077 }
    ensures text { let o = sent_at (state_of endpoint.now).bridges.settings came.now.vid came.now.frame place in
        (rest : List Sent) → comment_of (line.new ++ further_text two_tunnels rest)
        ≡ comment_of (line.old ++ (if is_first then outcomes_text two_tunnels (o ∷ rest) else further_text two_tunnels (o ∷ rest))) }
    ensures room { length line.new ≤ 65077 }
{
    if line.text().len() >= LONGEST_COMMENT {
        return;
    }
    line.put_sized(endpoint, came, is_first, two_tunnels, place);
}

/// Puts what left at a place in an event.
#[inline]
pub(crate) fn put_left(
    line: &mut Line,
    number: &mut Counter,
    event: u64,
    endpoint: &Endpoint,
    came: &Arrival,
    place: Place,
)
    requires there { IsSome (segment_at (state_of endpoint.now).bridges.settings came.now.vid) }
    requires leave { IsTrue (can_leave (state_of endpoint.now).bridges.settings came.now.vid place) }
    ensures { let S = (state_of endpoint.now).bridges.settings in
        line.new ≡ left_text event (has_two_tunnels S.overlay came.now.vid) (sent_at S came.now.vid came.now.frame place) }
{
    line.clear();
    line.put_text(b"of ");
    number.go_to(event);
    line.put_counter(number);
    line.put_octet(b' ');
    let two_tunnels = endpoint.has_two_tunnels(came);
    line.put_sized(endpoint, came, true, two_tunnels, place);
}

/// Puts the line of a capture that is cut.
pub(crate) fn put_cut(line: &mut Line, cut: &Cut)
    ensures { line.new ≡ cut_text cut.now }
{
    line.clear();
    line.put_text(b"cut ");
    line.put_tap(cut.tap);
    line.put_octet(b' ');
    line.put_number(cut.whole);
}

/// Clears a line and puts where an event stands, and a segment.
#[inline(always)]
fn put_front(line: &mut Line, number: &mut Counter, origin: &Origin, segment: Option<Vid>)
    ensures text { line.new ≡ front_text origin.now.event origin.now.moment origin.now.source origin.now.number
        ++ (segment_text segment ++ codes " ") }
    ensures len { length line.new ≤ 74 }
{
    number.go_to(origin.event);
    line.begin(number, &event_at(origin), segment);
}

/// An event that stands there, of which nothing else is known.
#[inline(always)]
fn event_at(origin: &Origin) -> Event<'static>
    ensures moment { result.moment ≡ origin.now.moment }
    ensures source { source_of result.happening ≡ origin.now.source }
    ensures number { result.number ≡ origin.now.number }
{
    Event {
        moment: origin.moment,
        number: origin.number,
        happening: match origin.source {
            Source::Changes => Happening::Change(0),
            Source::Tap(tap) => Happening::Record(
                tap,
                Captured {
                    original: 0,
                    octets: &[],
                },
            ),
        },
    }
}
