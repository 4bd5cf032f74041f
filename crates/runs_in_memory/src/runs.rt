//! Runs over files in memory.
ghost use Rattle.std.specs.Prelude.{◌≡◌, [], None, Ok, IfOk, IfSome};
ghost use Rattle.overlay_config.specs.Change.{IsRising, changes_in};
ghost use Rattle.overlay_config.specs.Settings.{settings_in};
ghost use Rattle.overlay.specs.Rules.{EachBehind};
ghost use Rattle.stream_run.specs.Sieved.{all_taken};
ghost use Rattle.runs_on_files.specs.Files.{segments_run};
ghost use Rattle.runs_in_memory.specs.Memory.{file_holds, file_left, input_left};
ghost use Rattle.runs_in_memory.specs.declared.files.memory_file.MemoryFile.{MemoryFile as AnyFile};
ghost use Rattle.runs_in_memory.specs.Left.{LeavesRun};

use crate::files::{Memory, MemoryFile};
use program_files::{FailedOutputs, Failure, Names};
use runs_on_files::{Job, Ran, Texts, run_on_files};
use stream_run::{TakesAll, Watch};

/// Runs on captures in memory, and writes what comes out into files in memory, where a folder is named. Where it is done, these
/// hold what comes out of the run of the captures that it found, octet for octet.
pub fn run_in_memory<'m, 'a, T: Watch>(
    memory: &Memory<'m>,
    job: Job<'_, 'a>,
    watch: &mut T,
    failed: &mut FailedOutputs,
) -> Result<Ran<MemoryFile<'m>>, Failure<'a>>
    requires told { IfSome job.changes (λ t. changes_in job.texts.now.changes.items ≡ Ok t.now) }
    requires rising { IfSome job.changes (λ t. EachBehind IsRising [] t.now) }
    ensures run { IfOk result (λ _. IfSome job.entry.folder (λ _. LeavesRun file_left input_left file_holds all_taken
        (segments_run job.entry.scope) (settings_in job.entry.texts.now.settings.items)
        (changes_in job.entry.texts.now.changes.items) job.entry.names.ports.now job.entry.names.underlay.now)) }
{
    run_on_files(memory, job, &mut TakesAll, watch, failed)
}

/// The texts of a run, read in memory: each is what some file has left, and that of the changes is empty where none is named.
pub fn texts_in_memory<'a>(memory: &Memory<'_>, names: Names<'_, 'a>) -> Result<Texts, Failure<'a>>
    ensures settings { IfOk result (λ texts. (file : AnyFile) × (texts.settings.items ≡ file.left.now)) }
    ensures changes { IfOk result (λ texts. IfSome names.entry.changes (λ _. (file : AnyFile)
        × (texts.changes.items ≡ file.left.now))) }
    ensures unnamed { IfOk result (λ texts. names.entry.changes ≡ None → texts.changes.items ≡ []) }
{
    Texts::read(memory, names)
}
