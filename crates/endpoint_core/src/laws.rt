//! Laws over the definitions.
ghost use Rattle.std.specs.Prelude.{◌≡◌, List, []};
ghost use Rattle.endpoint_core.specs.Settings.{Settings};
ghost use Rattle.endpoint_core.specs.Event.{Event, IsRising};
ghost use Rattle.endpoint_core.specs.Step.{opened, answers, state_after, last_moment};
ghost use Rattle.endpoint_core.specs.Run.{bridges_at, decisions, decided_of_all};
ghost use Rattle.endpoint_core.specs.Counts.{tally};

/// From its opening on, over any events whose moments never fall, an endpoint answers what the bridges of the segments
/// decide, each of them asked by its own segment's events alone. Its counts are how often each thing was so decided, its
/// moment is that of the last event, and of each segment's table it has what is live then of the bridge's own.
pub fn runs()
    ensures answers { (S : Settings) (es : List Event) → IsRising 0 es →
        answers (opened S) es ≡ decisions S [] es }
    ensures counts { (S : Settings) (es : List Event) → IsRising 0 es →
        (state_after (opened S) es).counts ≡ tally (decided_of_all (decisions S [] es)) }
    ensures moment { (S : Settings) (es : List Event) →
        (state_after (opened S) es).moment ≡ last_moment 0 es }
    ensures bridges { (S : Settings) (es : List Event) → IsRising 0 es →
        (state_after (opened S) es).bridges ≡ bridges_at (last_moment 0 es) S es }
{}
