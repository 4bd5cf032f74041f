//! Laws over the definitions.
ghost use Rattle.std.specs.Prelude.{◌≡◌, ◌⊎◌, ◌++◌, ℕ, List, [], map, true};
ghost use Rattle.overlay.specs.declared.settings.change.Change.{Change};
ghost use Rattle.timeline.specs.declared.event.Event.{Event};
ghost use Rattle.timeline.specs.declared.source.Tap.{Tap};
ghost use Rattle.endpoint_core.specs.Settings.{Settings};
ghost use Rattle.endpoint_core.specs.Event.{IsRising};
ghost use Rattle.capture_run.specs.Outputs.{event_of};
ghost use Rattle.run_counts.specs.Keeping.{Keeping, totals_in};
ghost use Rattle.run_counts.specs.Run.{IsCounted, answers_of, run_summary};
ghost use Rattle.run_counts.specs.Summary.{cuts_text};
ghost use Rattle.run_counts.specs.Totals.{totals_of};

/// Behind a run of any events whose moments never fall, the counters say what those events and the answers of their
/// segments' bridges come to, and the text is the summary of them, with the tally of all decisions, unless memory was
/// refused at the end.
pub fn runs()
    ensures counts { (S : Settings) (cs : List Change) (es : List Event) (begun ended : Keeping) → IsRising 0 (map (event_of cs) es) →
        IsCounted S cs es begun ended → totals_in ended ≡ totals_of es (answers_of S cs es) }
    ensures text { (S : Settings) (cs : List Change) (es : List Event) (begun ended : Keeping) (cut : List Tap) →
        IsRising 0 (map (event_of cs) es) →
        IsCounted S cs es begun ended →
        (ended.text ++ cuts_text (totals_in ended) cut ≡ run_summary S cs es cut) ⊎ (ended.is_lost ≡ true) }
{}
