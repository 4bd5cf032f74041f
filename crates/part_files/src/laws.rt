//! The laws of the files of a run's parts.
ghost use Rattle.std.specs.Prelude.{◌≡◌, ℕ, List, length, Option, Vec as AVec, Result, Ok};
ghost use Rattle.std.specs.List.{AllByRecursion};
ghost use Rattle.std.specs.declared.alloc.Global.{Global as AGlobal};
ghost use Rattle.line_stream.specs.Lines.{Reader};
ghost use Rattle.pcap.specs.Sink.{Drain};
ghost use Rattle.overlay_config.specs.Change.{changes_in};
ghost use Rattle.overlay_config.specs.Settings.{settings_in};
ghost use Rattle.capture_run.specs.Outputs.{Outputs};
ghost use Rattle.capture_run.specs.Run.{run};
ghost use Rattle.part_merge.specs.Blame.{UnlessBlamed, UnlessLines};
ghost use Rattle.part_merge.specs.Coming.{OpenPart};
ghost use Rattle.part_merge.specs.Whole.{Adds};
ghost use Rattle.part_merge.specs.declared.fault.MergeFault.{MergeFault};
ghost use Rattle.segment_parts.specs.Pieces.{PartAll};
ghost use Rattle.part_files.specs.Files.{AreCounted, AreOctets, HoldCaptures, Merges, OpenedOver};
ghost use Rattle.part_files.specs.Files.{OpensWith, Part, RanOver, ReadOver, segments_of, opened_parts};

/// Parts of a run by texts, of which exactly one is asked for each segment, and exactly one for what comes to none. Where
/// each part's run stopped at no fault and its outputs were empty before, and where each part is then opened over what its
/// outputs hold, there is a whole run without a fault, and what a merge to outputs of as many captures adds to them is what
/// comes out of that run, octet for octet, unless the merge is stopped by the device that it blames: an input of the part
/// that it names failed or gave up, or the output that it names failed.
///
/// Two things are asked of what comes in: that captures are octets, and that there are fewer than 2^64 events, which
/// numbers of 64 bits count.
pub fn merged()
    ensures { (settings changes : List ℕ) (texts : List (AVec ℕ AGlobal)) (text : List ℕ) (parts : List Part)
        (opened_now : List OpenPart) (old : List Drain) (old_underlay : Drain) (written : Option (List ℕ)) (failures : ℕ)
        (new : List Drain) (new_underlay : Drain) (now : Option (List ℕ)) (failures_now : ℕ)
        (result : Result (Unit {0}) MergeFault) →
        PartAll (segments_of parts) →
        AllByRecursion (RanOver settings changes texts text) parts →
        AllByRecursion OpenedOver parts →
        AreOctets texts text →
        AreCounted changes texts text →
        length old ≡ length texts →
        Merges (opened_parts parts) opened_now old old_underlay written failures new new_underlay now failures_now result →
        (o : Outputs) × (run (settings_in settings) (changes_in changes) texts text ≡ Ok o)
        × UnlessBlamed (opened_parts parts) opened_now old old_underlay failures new new_underlay failures_now result
        (Adds o old old_underlay written new new_underlay now) }
{}

/// A part whose run stopped at no fault, over outputs that were empty before. Each of its captures is the header of one and
/// what stands behind it, so that it is opened unless a read fails; and with captures that are opened over these outputs,
/// and with their lines, the part is opened unless a read of the lines fails. This second step asks of what comes in what
/// [`merged`] asks.
pub fn opened()
    ensures captures { (settings changes : List ℕ) (texts : List (AVec ℕ AGlobal)) (text : List ℕ) (p : Part) →
        RanOver settings changes texts text p → HoldCaptures p.new }
    ensures part { (settings changes : List ℕ) (texts : List (AVec ℕ AGlobal)) (text : List ℕ) (number : ℕ) (p : Part)
        (result : Result OpenPart (MergeFault × Reader)) →
        RanOver settings changes texts text p →
        ReadOver p →
        AreOctets texts text →
        AreCounted changes texts text →
        OpensWith number p result →
        UnlessLines number p.reader result }
{}
