//! Laws over the definitions.
ghost use Rattle.std.specs.Prelude.{◌≡◌, ℕ, List};
ghost use Rattle.segment_set.specs.Segments.{All};
ghost use Rattle.timeline.specs.Order.{IsRising};
ghost use Rattle.timeline.specs.Timeline.{Timeline};
ghost use Rattle.overlay.specs.declared.settings.change.Change.{Change as AChange};
ghost use Rattle.endpoint_core.specs.Settings.{Settings as InForce};
ghost use Rattle.capture_run.specs.Among.{outputs_among};
ghost use Rattle.capture_run.specs.Outputs.{outputs};

/// What comes out of the part of a run that has all segments, and what comes to none, is what comes out of the whole run,
/// for events in order of moment.
pub fn whole_part()
    ensures { (S : InForce) (changes : List AChange) (ports : ℕ) (timeline : Timeline) → IsRising 0 timeline.events →
        outputs_among All S changes ports timeline ≡ outputs S changes ports timeline }
{}
