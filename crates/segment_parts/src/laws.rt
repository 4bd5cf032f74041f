//! The laws of a run in parts.
ghost use Rattle.std.specs.Prelude.{◌≡◌, true, ℕ, Option, Some, List, [], map, length, sum, Ok};
ghost use Rattle.std.specs.List.{AllByRecursion, range_with_len};
ghost use Rattle.timeline.specs.Order.{IsRising as AreInOrder};
ghost use Rattle.timeline.specs.Timeline.{Timeline};
ghost use Rattle.overlay.specs.Rules.{MeetsRules};
ghost use Rattle.overlay.specs.Settings.{Settings as Rules};
ghost use Rattle.overlay.specs.declared.settings.change.Change.{Change};
ghost use Rattle.overlay.specs.declared.settings.change.TimedChange.{TimedChange};
ghost use Rattle.overlay_config.specs.Change.{changes_in};
ghost use Rattle.overlay_config.specs.Settings.{settings_in};
ghost use Rattle.endpoint_core.specs.Opened.{settings_told};
ghost use Rattle.endpoint_core.specs.Settings.{Settings};
ghost use Rattle.endpoint_core.specs.Event.{Event};
ghost use Rattle.endpoint_core.specs.Step.{opened, state_after};
ghost use Rattle.capture_run.specs.Outputs.{Outputs, outputs};
ghost use Rattle.noninterference.specs.Coming.{Inputs, IsRunOf, changes_of};
ghost use Rattle.segment_set.specs.Segments.{Segments, holds};
ghost use Rattle.capture_run.specs.Among.{cuts_among, outputs_among, run_among};
ghost use Rattle.part_merge.specs.Merged.{IsRising, Piece, texts_of_pieces, side_by_side, merged};
ghost use Rattle.table_lines.specs.Lines.{shown_at, tables_text};
ghost use Rattle.segment_parts.specs.Pieces.{pieces_of, all_pieces, pieces_in, IsAsked, PartAll};
ghost use Rattle.segment_parts.specs.Pieces.{HasVids, NamesVid, state_among, counted_among};

/// What a part of a run writes is the texts of those pieces of the whole run that are told of its segments: it answers
/// each of these events as the whole run does, octet for octet, and numbers it so. A whole run writes all pieces, which
/// are numbered from 1 on.
pub fn written()
    ensures part { (segments : Segments) (S : Settings) (changes : List Change) (ports : ℕ) (timeline : Timeline) →
        AreInOrder 0 timeline.events →
        outputs_among segments S changes ports timeline
        ≡ texts_of_pieces ports (pieces_in segments (pieces_of S changes timeline)) (cuts_among segments timeline.cuts) }
    ensures whole { (S : Settings) (changes : List Change) (ports : ℕ) (timeline : Timeline) →
        outputs S changes ports timeline ≡ texts_of_pieces ports (all_pieces (pieces_of S changes timeline)) timeline.cuts }
    ensures numbers { (S : Settings) (changes : List Change) (timeline : Timeline) →
        map (λ (p : Piece). p.number) (all_pieces (pieces_of S changes timeline)) ≡ range_with_len 1 (length timeline.events) }
{}

/// Parts of a run of which exactly one is asked for each segment, and exactly one for what comes to none: their pieces in
/// order of their numbers are those of the whole run, and the texts of these are its outputs, octet for octet. Numbers rise
/// in each part, and in none stands one of another. That is so for settings and changes whose segments have VIDs from 1 to
/// 4094, as all have that meet the rules of settings.
pub fn merging()
    ensures pieces { (parts : List Segments) (S : Settings) (changes : List Change) (timeline : Timeline) →
        PartAll parts → HasVids S → AllByRecursion NamesVid changes →
        merged (map (λ (part : Segments). pieces_in part (pieces_of S changes timeline)) parts)
        ≡ all_pieces (pieces_of S changes timeline) }
    ensures rising { (segments : Segments) (S : Settings) (changes : List Change) (timeline : Timeline) →
        IsRising 0 (pieces_in segments (pieces_of S changes timeline)) }
    ensures apart { (parts : List Segments) (S : Settings) (changes : List Change) (timeline : Timeline) →
        PartAll parts → HasVids S → AllByRecursion NamesVid changes →
        IsRising 0 (merged (map (λ (part : Segments). pieces_in part (pieces_of S changes timeline)) parts)) }
    ensures outputs { (parts : List Segments) (S : Settings) (changes : List Change) (ports : ℕ) (timeline : Timeline) →
        PartAll parts → HasVids S → AllByRecursion NamesVid changes →
        texts_of_pieces ports (merged (map (λ (part : Segments). pieces_in part (pieces_of S changes timeline)) parts))
        (side_by_side (map (λ (part : Segments). cuts_among part timeline.cuts) parts))
        ≡ outputs S changes ports timeline }
    ensures vids { (s : Rules) → MeetsRules s → HasVids (settings_told s) }
{}

/// The same of a run over captures that had no fault: each part of it writes its own pieces, and the texts of all parts'
/// pieces, in order of their numbers, are what came out of it, octet for octet.
pub fn runs()
    ensures parts { (segments : Segments) (s : Rules) (x : Inputs) (timeline : Timeline) (o : Outputs) →
        IsRunOf s x timeline o →
        run_among segments (Ok s) (Ok x.changes) x.ports x.underlay
        ≡ Ok (texts_of_pieces (length x.ports) (pieces_in segments (pieces_of (settings_told s) (changes_of x) timeline))
        (cuts_among segments timeline.cuts)) }
    ensures together { (parts : List Segments) (s : Rules) (x : Inputs) (timeline : Timeline) (o : Outputs) →
        IsRunOf s x timeline o → PartAll parts → MeetsRules s → AllByRecursion NamesVid (changes_of x) →
        texts_of_pieces (length x.ports)
        (merged (map (λ (part : Segments). pieces_in part (pieces_of (settings_told s) (changes_of x) timeline)) parts))
        (side_by_side (map (λ (part : Segments). cuts_among part timeline.cuts) parts))
        ≡ o }
{}

/// The same of a run by texts. What a text of settings means meets the rules, and each change of a text names a segment by a
/// VID of 1 to 4094, or none: so of parts of such a run nothing more is asked than that they part all segments.
pub fn texts()
    ensures changes { (text : List ℕ) (cs : List TimedChange) → changes_in text ≡ Ok cs →
        AllByRecursion NamesVid (map (λ (c : TimedChange). c.change) cs) }
    ensures together { (parts : List Segments) (settings changes : List ℕ)
        (s : Rules) (x : Inputs) (timeline : Timeline) (o : Outputs) →
        settings_in settings ≡ Ok s → changes_in changes ≡ Ok x.changes → IsRunOf s x timeline o → PartAll parts →
        texts_of_pieces (length x.ports)
        (merged (map (λ (part : Segments). pieces_in part (pieces_of (settings_told s) (changes_of x) timeline)) parts))
        (side_by_side (map (λ (part : Segments). cuts_among part timeline.cuts) parts))
        ≡ o }
{}

/// Behind any events the endpoint of a part has the settings in force of the whole run's, the tables of its own segments,
/// and their counts; of other segments it counts nothing. So the lines of its tables are those of the whole run's, and the
/// counts of all parts add up to those of the whole run.
pub fn states()
    ensures settings { (segments : Segments) (S : Settings) (es : List Event) →
        (state_among segments (opened S) es).bridges.settings ≡ (state_after (opened S) es).bridges.settings }
    ensures tables { (segments : Segments) (S : Settings) (es : List Event) (vid : ℕ) → holds segments (Some vid) ≡ true →
        (state_among segments (opened S) es).bridges.tables vid ≡ (state_after (opened S) es).bridges.tables vid }
    ensures counts { (segments : Segments) (S : Settings) (es : List Event) →
        (state_among segments (opened S) es).counts ≡ counted_among segments (state_after (opened S) es).counts }
    ensures moment { (segments : Segments) (S : Settings) (es : List Event) →
        (state_among segments (opened S) es).moment ≡ (state_after (opened S) es).moment }
    ensures lines { (segments : Segments) (S : Settings) (es : List Event) →
        tables_text segments (state_among segments (opened S) es) ≡ tables_text segments (state_after (opened S) es) }
    ensures shown { (segments : Segments) (S : Settings) (es : List Event) (at : Option ℕ) →
        tables_text segments (shown_at at (state_among segments (opened S) es))
        ≡ tables_text segments (shown_at at (state_after (opened S) es)) }
    ensures sums { (parts : List Segments) (S : Settings) (es : List Event) → PartAll parts →
        (segment : Option ℕ) (number : ℕ) → IsAsked segment →
        sum (map (λ (part : Segments). (state_among part (opened S) es).counts segment number) parts)
        ≡ (state_after (opened S) es).counts segment number }
{}
