//! The laws of files that tell everything.
ghost use Rattle.std.specs.Prelude.{ℕ, List};
ghost use Rattle.std.specs.Borrow.{Bor};
ghost use Rattle.timeline.specs.declared.event.Event.{Event};
ghost use Rattle.overlay_config.specs.Fault.{Meaning};
ghost use Rattle.overlay_config.specs.Settings.{Settings};
ghost use Rattle.overlay.specs.declared.settings.change.TimedChange.{TimedChange};
ghost use Rattle.segment_set.specs.Segments.{Segments};
ghost use Rattle.part_record.specs.declared.digests.CaptureDigest.{CaptureDigest};
ghost use Rattle.runs_on_files.specs.Digests.{AreDigestsOf};
ghost use Rattle.runs_on_files.specs.Files.{IsRunOnFiles};
ghost use Rattle.runs_in_memory.specs.Memory.{file_holds, file_left, input_left};
ghost use Rattle.runs_in_memory.specs.Left.{AlwaysTells, AreDigested, LeavesRun};

use std::io::Input;
use std::rt::Files;

/// Where each file tells what it has left and what it holds, and standard input what it has left: what the contract of a run
/// on files says is that captures of its names had texts, and that what its files hold more than before is what comes out of
/// the run of all these texts.
pub fn left<R: Files + Input>()
    ensures { (taken : List Event → List Event) (segments : Segments) (settings : Meaning Settings)
        (changes : Meaning (List TimedChange)) (ports : List (Bor (List ℕ))) (underlay : List ℕ) →
        AlwaysTells R.File.remaining → AlwaysTells R.Reader.remaining → AlwaysTells R.File.contents →
        IsRunOnFiles R.File.remaining R.Reader.remaining R.File.contents taken segments settings changes ports underlay →
        LeavesRun R.File.remaining R.Reader.remaining R.File.contents taken segments settings changes ports underlay }
{}

/// Where each file and standard input tell what they have left: what the contract of digests says is that captures of these
/// names had texts, of which these are the digests.
pub fn digested<R: Files + Input>()
    ensures { (names : List (Bor (List ℕ))) (digests : List CaptureDigest) →
        AlwaysTells R.File.remaining → AlwaysTells R.Reader.remaining →
        AreDigestsOf R.File.remaining R.Reader.remaining names digests →
        AreDigested R.File.remaining R.Reader.remaining names digests }
{}

/// Files in memory are such files: of a run over them this holds without a condition.
pub fn left_in_memory()
    ensures { (taken : List Event → List Event) (segments : Segments) (settings : Meaning Settings)
        (changes : Meaning (List TimedChange)) (ports : List (Bor (List ℕ))) (underlay : List ℕ) →
        IsRunOnFiles file_left input_left file_holds taken segments settings changes ports underlay →
        LeavesRun file_left input_left file_holds taken segments settings changes ports underlay }
{}

/// And so of digests of captures in memory.
pub fn digested_in_memory()
    ensures { (names : List (Bor (List ℕ))) (digests : List CaptureDigest) →
        AreDigestsOf file_left input_left names digests → AreDigested file_left input_left names digests }
{}
