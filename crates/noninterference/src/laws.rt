//! The laws of two runs.
ghost use Rattle.std.specs.Prelude.{◌≡◌, ℕ, List, ◌++◌, length, map};
ghost use Rattle.std.specs.List.{AllByRecursion, flat_map};
ghost use Rattle.pcap.specs.Written.{written};
ghost use Rattle.timeline.specs.Events.{IsTapOf};
ghost use Rattle.timeline.specs.Inputs.{inputs, opened_captures};
ghost use Rattle.timeline.specs.Timeline.{Timeline};
ghost use Rattle.timeline.specs.declared.source.Source.{Source};
ghost use Rattle.timeline.specs.declared.source.Tap.{Tap};
ghost use Rattle.overlay.specs.Settings.{Settings as Told};
ghost use Rattle.endpoint_core.specs.Settings.{Settings};
ghost use Rattle.endpoint_core.specs.Event.{Event, IsRising};
ghost use Rattle.endpoint_core.specs.Step.{opened};
ghost use Rattle.decision_lines.specs.Lines.{cut_line};
ghost use Rattle.capture_run.specs.Outputs.{Outputs};
ghost use Rattle.noninterference.specs.Alone.{only};
ghost use Rattle.noninterference.specs.Coming.{Inputs, IsRunOf, IsTold, IsToldAsItIs, AreChangesTold, coming_to};
ghost use Rattle.noninterference.specs.Leaving.{rows, rows_of, departures, departures_in, lines, lines_in};
ghost use Rattle.noninterference.specs.Leaving.{records_at, records_in, capture_at, numbered, line_text};

/// Two lists of events whose moments never fall, to endpoints with the same settings, which agree in what concerns a
/// segment: what leaves in the segment is the same, moment, place and octets, in order, and so are its decision lines
/// but for their numbers.
pub fn events()
    ensures leaving { (vid : ℕ) (S : Settings) (es fs : List Event) → IsRising 0 es → IsRising 0 fs →
        only vid (opened S) es ≡ only vid (opened S) fs →
        departures_in vid (rows (opened S) es) ≡ departures_in vid (rows (opened S) fs) }
    ensures told { (vid : ℕ) (S : Settings) (es fs : List Event) → IsRising 0 es → IsRising 0 fs →
        only vid (opened S) es ≡ only vid (opened S) fs →
        lines_in vid (rows (opened S) es) ≡ lines_in vid (rows (opened S) fs) }
{}

/// Two runs with the same settings. If of each source, the list of changes, each port's capture and the underlay's, the
/// same changes or records concern a segment (moments, lengths, octets, in order), then in every output capture the
/// records that leave in the segment are the same (moments, octets, in order), and so are its decision lines but for
/// their numbers. Whatever else stands in the captures and among the changes: what others send, learn, flood or fill.
pub fn captures()
    ensures records { (vid : ℕ) (s : Told) (x y : Inputs) (l m : Timeline) (o p : Outputs) →
        IsRunOf s x l o → IsRunOf s y m p →
        ((source : Source) → coming_to vid s x l source ≡ coming_to vid s y m source) →
        (output : Tap) →
        records_in vid output (departures (rows_of s x l)) ≡ records_in vid output (departures (rows_of s y m)) }
    ensures told { (vid : ℕ) (s : Told) (x y : Inputs) (l m : Timeline) (o p : Outputs) →
        IsRunOf s x l o → IsRunOf s y m p →
        ((source : Source) → coming_to vid s x l source ≡ coming_to vid s y m source) →
        lines_in vid (rows_of s x l) ≡ lines_in vid (rows_of s y m) }
{}

/// What comes from a capture is its records in their order, each at the greatest moment so far. Where no moment of the
/// capture falls, that is the record's own. What comes from the changes, whose moments never fall, is the changes.
pub fn sources()
    ensures read { (s : Told) (x : Inputs) (l : Timeline) (o : Outputs) → IsRunOf s x l o →
        AllByRecursion (IsTold x l) (opened_captures (inputs x.ports x.underlay)) }
    ensures own_moments { (s : Told) (x : Inputs) (l : Timeline) (o : Outputs) → IsRunOf s x l o →
        AllByRecursion (IsToldAsItIs x l) (opened_captures (inputs x.ports x.underlay)) }
    ensures changes { (s : Told) (x : Inputs) (l : Timeline) (o : Outputs) → IsRunOf s x l o → AreChangesTold x l }
{}

/// The outputs of a run are these records and lines: each capture is the global header and the records that leave
/// there, and the decision lines are those of all events, numbered, and behind them those of captures with a cut rest.
pub fn octets()
    ensures captures { (s : Told) (x : Inputs) (l : Timeline) (o : Outputs) → IsRunOf s x l o →
        (output : Tap) → IsTapOf (length x.ports) output →
        capture_at output o ≡ written (records_at output (departures (rows_of s x l))) }
    ensures told { (s : Told) (x : Inputs) (l : Timeline) (o : Outputs) → IsRunOf s x l o →
        o.decisions ≡ flat_map line_text (numbered 0 l.events (rows_of s x l)) ++ flat_map cut_line l.cuts }
    ensures numbers { (s : Told) (x : Inputs) (l : Timeline) →
        map (λ n. n.line) (numbered 0 l.events (rows_of s x l)) ≡ lines (rows_of s x l) }
{}
