//! The laws of stories.
ghost use Rattle.std.specs.Prelude.{◌≡◌, ◌<◌, ◌≤◌, ℕ, ◌==◌, false, is_none, is_some};
ghost use Rattle.std.specs.Prelude.{List, ◌∷◌, ◌++◌, length, map, filter, Option, Some, None};
ghost use Rattle.std.specs.List.{AllByRecursion, flat_map};
ghost use Rattle.std.specs.Option.{option_to_list};
ghost use Rattle.wire.specs.Reason.{number_of};
ghost use Rattle.wire.specs.declared.ether.reason.Reason.{Reason};
ghost use Rattle.filter_db.specs.declared.place.Place.{Place};
ghost use Rattle.overlay.specs.Ports.{Ports};
ghost use Rattle.overlay.specs.Overlay.{Overlay};
ghost use Rattle.overlay.specs.declared.settings.change.Change.{Change};
ghost use Rattle.tunnel_learning.specs.Bridge.{Config, local_places, remote_places};
ghost use Rattle.endpoint_core.specs.Arrival.{came_at, came_by};
ghost use Rattle.change_story.specs.Change.{change_text};
ghost use Rattle.event_story.specs.Bridge.{left_among, left_facts, left_out, places_of, ports_told};
ghost use Rattle.event_story.specs.Local.{local_facts};
ghost use Rattle.event_story.specs.Packet.{packet_facts};
ghost use Rattle.event_story.specs.Tests.{told};
ghost use Rattle.event_story.specs.declared.fact.Fact.{Fact};
ghost use Rattle.story_laws.specs.Refusing.{RefusesAs, is_packet_refusal, is_refusal};
ghost use Rattle.story_laws.specs.Told.{AreApart, IsSound, one_by_one, place_told};

/// The text of a change tells the change: another change has another text. So `add_segment`'s has all its keys.
pub fn changes()
    ensures { (c d : Change) → IsSound c → IsSound d → change_text c ≡ change_text d → c ≡ d }
{}

/// Of a flood of a frame from a place, the outlets are all those places of the segment, in their order, for which there is no
/// reason that the flood leaves them out; and its story tells one of each other place, in the same order. So both together are the
/// places of the segment, each once. A segment of up to 16 ports has a fact of each place; where there are more ports, a fact is of
/// all ports that follow each other and are left out for the same cause, and tells what one of each would.
pub fn floods()
    ensures outlets { (c : Config) (from : Place) →
        local_places c from ++ remote_places c from ≡ filter (λ to. is_none (left_out c from to)) (places_of c) }
    ensures told { (c : Config) (from : Place) → flat_map one_by_one (left_facts c from) ≡ left_among c from (places_of c) }
    ensures left { (c : Config) (from : Place) →
        map place_told (flat_map one_by_one (left_facts c from)) ≡ map Some (filter (λ to. is_some (left_out c from to)) (places_of c)) }
    ensures few { (c : Config) (from : Place) → length c.up ≤ 16 → left_facts c from ≡ left_among c from (places_of c) }
    ensures apart { (c : Config) (from : Place) → 16 < length c.up → AreApart (ports_told c from) }
{}

/// Where a frame or a packet is refused for a reason, its story tells what the tests saw up to that of the reason, which is the
/// last; where it isn't, what all of them saw.
pub fn tests()
    ensures refused { (saw : Reason → Option Fact) (reason test : Reason) (before behind : List Reason) →
        AllByRecursion (λ t. (number_of reason == number_of t) ≡ false) before → number_of reason ≡ number_of test →
        told saw (Some reason) (before ++ test ∷ behind) ≡
        flat_map (λ t. option_to_list (saw t)) before ++ option_to_list (saw test) }
    ensures taken { (saw : Reason → Option Fact) (tests : List Reason) →
        told saw None tests ≡ flat_map (λ t. option_to_list (saw t)) tests }
{}

/// What a story tells of the tests says by its own values what becomes of a frame or a packet: where it is refused, the last fact
/// is one that is refused, as a length above the most or a port that is down, and none before it is; where it comes to a segment,
/// none is. Two facts of a packet don't tell it alone: a checksum left to the sender's card, which the settings take or not, and
/// the tag of a frame in a tunnel that is cut short, which is no test of its own.
pub fn refusals()
    ensures frames { (ports : Ports) (overlay : Overlay) (port original : ℕ) (octets : List ℕ) →
        RefusesAs is_refusal (came_at ports overlay port original octets) (local_facts ports overlay port original octets) }
    ensures packets { (overlay : Overlay) (original : ℕ) (octets : List ℕ) →
        RefusesAs (is_packet_refusal overlay.underlay) (came_by overlay original octets) (packet_facts overlay original octets) }
{}
