//! The laws of two runs over streams, either of which may have stopped.
ghost use Rattle.std.specs.Prelude.{◌≡◌, ◌⊎◌, ℕ, length, Ok, Err};
ghost use Rattle.pcap.specs.declared.text.record.RecordFault.{RecordFault};
ghost use Rattle.timeline.specs.Timeline.{Timeline};
ghost use Rattle.timeline.specs.declared.source.Source.{Source};
ghost use Rattle.timeline.specs.declared.source.Tap.{Tap};
ghost use Rattle.overlay.specs.Settings.{Settings as Told};
ghost use Rattle.capture_run.specs.declared.fault.RunFault.TheVariants as faults;
ghost use Rattle.endpoint_core.specs.Opened.{settings_told};
ghost use Rattle.stream_run.specs.Over.{IsRunOver};
ghost use Rattle.stream_run.specs.Stage.{Drains, StandAt, no_texts};
ghost use Rattle.stream_run.specs.declared.fault.StreamFault.TheVariants as stream;
ghost use Rattle.noninterference.specs.Coming.{Inputs, coming};
ghost use Rattle.noninterference.specs.Leaving.{rows_of, departures, lines_in, records_in};
ghost use Rattle.tenants_apart.specs.Own.{Needs, IsEnough, IsOneFront};
ghost use Rattle.tenants_apart.specs.Runs.{whole, AreFirst, Hold};
ghost use Rattle.tenants_apart.specs.Texts.{TellAlike, own_coming, replies_of};

/// What [`stream_run::run`] says that a run leaves, where it ended or a record's fault stopped it, is what leaves and is
/// told by the first of all events that come to it. So it is where a read failed; or there no header was written yet.
pub fn left()
    ensures ended { (s : Told) (x : Inputs) (old new : Drains) →
        IsRunOver (Ok s) (Ok x.changes) x.ports x.underlay old new (Ok tt) → (l : Timeline) × AreFirst l x × Hold s x l old new }
    ensures at_a_fault { (s : Told) (x : Inputs) (old new : Drains) (place : Tap) (n : ℕ) (fault : RecordFault) →
        IsRunOver (Ok s) (Ok x.changes) x.ports x.underlay old new (Err (stream.Run (faults.Record place n fault))) →
        (l : Timeline) × AreFirst l x × Hold s x l old new }
    ensures at_a_read { (s : Told) (x : Inputs) (old new : Drains) (place : Tap) →
        IsRunOver (Ok s) (Ok x.changes) x.ports x.underlay old new (Err (stream.Read place)) →
        StandAt old new (no_texts (length x.ports)) ⊎ ((l : Timeline) × AreFirst l x × Hold s x l old new) }
{}

/// Two runs with settings that tell the same of a segment and of what it needs, either of which may have stopped at the fault
/// of a record, also one of another tenant's. Of all that would have come to each, source by source, up to its first fault, the
/// segment's own is the same, and its own `AddSegment` and `SetLimit` are answered alike. Then at each output the records that
/// leave in the segment by the one run are the first of those by the other, or the other way round, and so are its decision
/// lines but for their numbers: whatever other tenants' records stopped either.
pub fn fronts()
    ensures records { (vid : ℕ) (needs : Needs) (s t : Told) (x y : Inputs) (l m : Timeline) → AreFirst l x →
        AreFirst m y →
        IsEnough vid needs (settings_told s) (coming x (whole x)) → TellAlike vid needs s t →
        ((source : Source) → own_coming vid needs s x (whole x) source ≡ own_coming vid needs t y (whole y) source) →
        replies_of vid s x (whole x) ≡ replies_of vid t y (whole y) → (output : Tap) →
        IsOneFront (records_in vid output (departures (rows_of s x l))) (records_in vid output (departures (rows_of t y m))) }
    ensures told { (vid : ℕ) (needs : Needs) (s t : Told) (x y : Inputs) (l m : Timeline) → AreFirst l x →
        AreFirst m y →
        IsEnough vid needs (settings_told s) (coming x (whole x)) → TellAlike vid needs s t →
        ((source : Source) → own_coming vid needs s x (whole x) source ≡ own_coming vid needs t y (whole y) source) →
        replies_of vid s x (whole x) ≡ replies_of vid t y (whole y) →
        IsOneFront (lines_in vid (rows_of s x l)) (lines_in vid (rows_of t y m)) }
{}
