//! The law of what two runs tell of their tables at a moment.
ghost use Rattle.std.specs.Prelude.{◌≡◌, ◌≤◌, ℕ, List, map};
ghost use Rattle.segment_set.specs.Segments.{All};
ghost use Rattle.timeline.specs.Order.{IsRising};
ghost use Rattle.timeline.specs.declared.event.Event.{Event as Happens};
ghost use Rattle.overlay.specs.declared.settings.change.TimedChange.{TimedChange};
ghost use Rattle.endpoint_core.specs.Settings.{Settings};
ghost use Rattle.endpoint_core.specs.Step.{opened, passed, state_after};
ghost use Rattle.capture_run.specs.Outputs.{event_of};
ghost use Rattle.table_lines.specs.Lines.{tables_text};
ghost use Rattle.tenants_apart.specs.Own.{Needs, AreMembers, AreWithin, part_of, own_events, room_replies};
ghost use Rattle.tenants_apart.specs.Reports.{until, tables_at, HasLines};

/// What [`run_reports::Reports`] tells of the tables at a moment, where one asks for nothing else, is the text of the tables as
/// they are then, behind all that comes up to that moment. Of two runs that agree up to it in a segment's own events, with its
/// own `AddSegment` and `SetLimit` answered alike, and with settings that agree in what the segment has and needs, both texts
/// have the same lines of the segment, whatever comes behind that moment, and whatever others do.
pub fn at_a_moment()
    ensures told { (S : Settings) (changes : List TimedChange) (es : List Happens) (moment : ℕ) → IsRising 0 es →
        tables_at moment S changes es ≡ tables_text All
        (passed moment (state_after (opened S) (map (event_of (map (λ c. c.change) changes)) (until moment es)))) }
    ensures own { (vid : ℕ) (needs : Needs) (S T : Settings) (cs ds : List TimedChange) (es fs : List Happens) (moment : ℕ) →
        1 ≤ vid → vid ≤ 4094 → IsRising 0 es → IsRising 0 fs →
        AreMembers vid needs S → AreWithin vid needs S (map (event_of (map (λ c. c.change) cs)) (until moment es)) →
        part_of vid needs S ≡ part_of vid needs T →
        own_events vid needs S (map (event_of (map (λ c. c.change) cs)) (until moment es)) ≡
        own_events vid needs T (map (event_of (map (λ c. c.change) ds)) (until moment fs)) →
        room_replies vid S (map (event_of (map (λ c. c.change) cs)) (until moment es)) ≡
        room_replies vid T (map (event_of (map (λ c. c.change) ds)) (until moment fs)) →
        (own : List ℕ) × HasLines vid own (tables_at moment S cs es) × HasLines vid own (tables_at moment T ds fs) }
{}
