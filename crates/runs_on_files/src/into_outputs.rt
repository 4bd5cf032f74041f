//! A run into outputs.
ghost use Rattle.std.specs.Prelude.{◌≡◌, [], All, Ok, IfOk, length};
ghost use Rattle.overlay_config.specs.Change.{IsRising, changes_in};
ghost use Rattle.overlay_config.specs.Settings.{settings_in};
ghost use Rattle.overlay.specs.Rules.{EachBehind};
ghost use Rattle.pcap.specs.Block.{Block};
ghost use Rattle.program_files.specs.Held.{AreHeld, handed_on, written};
ghost use Rattle.runs_on_files.specs.Held.{IsRunInto};
ghost use Rattle.stream_run.specs.Begun.{IsUnread};
ghost use Rattle.stream_run.specs.Sieved.{taken_with};

use crate::run_captures::{RunCaptures, failure_of};
use program_files::{FailedOutputs, Failure, HandedOn, Names, OutputFiles};
use std::alloc::Global;
use std::io::{Read, Write};
use stream_run::{Job, Sieve, Watch, run};

/// A run whose texts were read, and the outputs that it goes into.
#[derive(Drop)]
pub(crate) struct WrittenJob<'j, 'a, O: Write + Drop> {
    pub(crate) names: Names<'j, 'a>,
    pub(crate) run: Job<'j>,
    pub(crate) outputs: OutputFiles<O>,
}

/// Runs on captures of which nothing is read yet, with the settings and the changes that the texts mean, into the outputs. It
/// answers them with no block that holds anything back.
pub(crate) fn run_into<'a, F: Read + Drop, I: Read + Drop, O: Write + Drop, S: Sieve, T: Watch>(
    alloc: Global,
    job: WrittenJob<'_, 'a, O>,
    captures: &mut RunCaptures<'a, F, I>,
    sieve: &mut S,
    watch: &mut T,
    failed: &mut FailedOutputs,
) -> Result<HandedOn<O>, Failure<'a>>
    requires settings { settings_in job.run.settings_text.now ≡ Ok job.run.settings }
    requires told { changes_in job.run.changes_text.now ≡ Ok job.run.changes.now }
    requires rising { EachBehind IsRising [] job.run.changes.now }
    requires outputs { length job.outputs.files.ports ≡ length captures.old.ports.items }
    requires ports { All IsUnread captures.old.ports.items }
    requires underlay { IsUnread captures.old.underlay }
    ensures handed_ports { IfOk result (λ files. All (λ (b : Block). b.held ≡ []) files.ports.items) }
    ensures handed_underlay { IfOk result (λ files. files.underlay.held ≡ []) }
    ensures handed_decisions { IfOk result (λ files. files.decisions.held ≡ []) }
    ensures run { IfOk result (λ files. IsRunInto
        (taken_with (S.taken sieve.old) (settings_in job.entry.run.settings_text.now) (changes_in job.entry.run.changes_text.now))
        job.entry.run.segments.now
        (settings_in job.entry.run.settings_text.now) (changes_in job.entry.run.changes_text.now)
        captures.old.ports.items captures.old.underlay captures.new.ports.items captures.new.underlay
        (written job.entry.outputs.files)
        (handed_on files.ports.items files.underlay files.decisions)) }
    ensures in_files { IfOk result (λ files. AreHeld O.contents (handed_on files.ports.items files.underlay files.decisions)) }
{
    let WrittenJob {
        names,
        run: asked,
        mut outputs,
    } = job;
    match run(alloc, asked, captures, &mut outputs.files, sieve, watch) {
        Ok(()) => match outputs.finish(alloc, failed) {
            Ok(files) => Ok(files),
            Err(failure) => Err(failure),
        },
        Err(fault) => {
            let failure = failure_of(names, fault, captures);
            Err(outputs.finish_behind(alloc, failure, failed))
        }
    }
}
