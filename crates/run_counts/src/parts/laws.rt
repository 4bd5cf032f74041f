//! Laws over the definitions.
ghost use Rattle.std.specs.Prelude.{◌≡◌, All, List, length};
ghost use Rattle.overlay.specs.declared.settings.change.Change.{Change};
ghost use Rattle.timeline.specs.declared.event.Event.{Event};
ghost use Rattle.timeline.specs.declared.source.Tap.{Tap};
ghost use Rattle.endpoint_core.specs.Settings.{Settings};
ghost use Rattle.run_counts.specs.Run.{run_summary};
ghost use Rattle.run_counts.specs.PartsRun.{told_of};
ghost use Rattle.run_counts.specs.Told.{IsPlace, IsTold, text_of};

/// The summary of a run is the text of counts that a run can have, so it is read.
pub fn runs()
    ensures can { (S : Settings) (cs : List Change) (es : List Event) (cut : List Tap)
        → All (IsPlace (length S.ports.ports)) cut → IsTold (length S.ports.ports) (told_of S cs es cut) }
    ensures text { (S : Settings) (cs : List Change) (es : List Event) (cut : List Tap)
        → run_summary S cs es cut ≡ text_of (length S.ports.ports) (told_of S cs es cut) }
{}
