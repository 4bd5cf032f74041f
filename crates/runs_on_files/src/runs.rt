//! Runs over captures, in files and pipes.
ghost use Rattle.std.specs.Prelude.{◌≡◌, List, [], All, Ok, IfOk, IfSome};
ghost use Rattle.overlay_config.specs.Change.{IsRising, changes_in};
ghost use Rattle.overlay_config.specs.Settings.{settings_in};
ghost use Rattle.overlay.specs.Rules.{EachBehind};
ghost use Rattle.pcap.specs.Source.{Stream};
ghost use Rattle.runs_on_files.specs.Files.{IsRunInFiles, IsRunOnFiles, segments_run};
ghost use Rattle.runs_on_files.specs.declared.job.Scope.TheVariants.{Whole};
ghost use Rattle.stream_run.specs.Begun.{IsUnread};
ghost use Rattle.stream_run.specs.Sieved.{taken_with};

use crate::done::{Done, done_on};
use crate::in_folder::prepare_outputs;
use crate::into_outputs::{WrittenJob, run_into};
use crate::job::{Job, Scope};
use crate::parts::{Ran, lent_to, ran_of};
use crate::run_captures::{RunCaptures, failure_of};
use crate::unwritten::run_into_nothing;
use capture_run::{RunFault, of_changes, of_settings};
use overlay_config::{Settings, TimedChange, changes_of, settings_of};
use program_files::{FailedOutputs, Failure, PartRecordFile, open_capture, open_captures};
use segment_set::SegmentSet;
use std::io::Input;
use std::rt::Files;
use stream_run::{Captures, Job as RunJob, Sieve, Watch};

/// A job whose texts were read.
#[derive(Drop)]
struct ReadJob<'j, 'a> {
    job: Job<'j, 'a>,
    settings: Settings,
    changes: &'j [TimedChange],
}

/// Runs on captures, and writes what comes out into a folder as it comes, where one is named. Someone looks on, who sees the same
/// run each way. What a part that is written was made from is still to be written.
///
/// Captures are read once. Where no digests of them are lent to such a part, these are taken of the octets as it reads them, up to
/// the end that it finds; where they are, the captures have to have as many octets as they tell.
///
/// Where the settings, the changes or the number of captures are refused, an output is one of the files that are read, or more
/// files would be open at once than the system lets be (of less than 200 that isn't tried), nothing is made or written; where
/// an output can't be opened, or a capture that is a regular file begins as none does, what stands in the outputs is kept. All
/// outputs that couldn't be written are noted, wherever it stops.
pub fn run_on_files<'a, R: Files + Input + AllocGlobal, S: Sieve, T: Watch>(
    rt: &R,
    job: Job<'_, 'a>,
    sieve: &mut S,
    watch: &mut T,
    failed: &mut FailedOutputs,
) -> Result<Ran<R::File>, Failure<'a>>
    requires told { IfSome job.changes (λ t. changes_in job.texts.now.changes.items ≡ Ok t.now) }
    requires rising { IfSome job.changes (λ t. EachBehind IsRising [] t.now) }
    ensures run { IfOk result (λ _. IfSome job.entry.folder
        (λ _. IsRunOnFiles R.File.remaining R.Reader.remaining R.File.contents
        (taken_with (S.taken sieve.old) (settings_in job.entry.texts.now.settings.items) (changes_in job.entry.texts.now.changes.items))
        (segments_run job.entry.scope) (settings_in job.entry.texts.now.settings.items)
        (changes_in job.entry.texts.now.changes.items) job.entry.names.ports.now job.entry.names.underlay.now)) }
{
    let lent = match lent_to(rt, job) {
        Ok(lent) => lent,
        Err(failure) => return Err(failure),
    };
    let done = match run_on_names(rt, job, sieve, watch, failed) {
        Ok(done) => done,
        Err(failure) => return Err(failure),
    };
    match ran_of(rt, job, lent, done) {
        Ok(ran) => Ok(ran),
        Err(failure) => Err(failure),
    }
}

/// Runs on the captures of its names.
fn run_on_names<'a, R: Files + Input + AllocGlobal, S: Sieve, T: Watch>(
    rt: &R,
    job: Job<'_, 'a>,
    sieve: &mut S,
    watch: &mut T,
    failed: &mut FailedOutputs,
) -> Result<Done<R::File>, Failure<'a>>
    requires told { IfSome job.changes (λ t. changes_in job.texts.now.changes.items ≡ Ok t.now) }
    requires rising { IfSome job.changes (λ t. EachBehind IsRising [] t.now) }
    ensures run { IfOk result (λ _. IfSome job.entry.folder
        (λ _. IsRunOnFiles R.File.remaining R.Reader.remaining R.File.contents
        (taken_with (S.taken sieve.old) (settings_in job.entry.texts.now.settings.items) (changes_in job.entry.texts.now.changes.items))
        (segments_run job.entry.scope) (settings_in job.entry.texts.now.settings.items)
        (changes_in job.entry.texts.now.changes.items) job.entry.names.ports.now job.entry.names.underlay.now)) }
{
    let is_digested = job.takes_digests();
    let underlay = match open_capture(rt, job.names.underlay, is_digested) {
        Ok(underlay) => underlay,
        Err(failure) => return Err(failure),
    };
    let ports = match open_captures(rt, job.names.ports, is_digested) {
        Ok(ports) => ports,
        Err(failure) => return Err(failure),
    };
    // A read of a pipe may wait for whoever writes into it, and what came of the events so far has to be out by then.
    let captures = Captures {
        ports,
        underlay,
        may_wait: !job.names.are_regular_files(rt),
    };
    run_on_opened(rt, job, captures, sieve, watch, failed)
}

/// The same on captures of which nothing is read yet.
fn run_on_opened<'a, R: Files + Input + AllocGlobal, S: Sieve, T: Watch>(
    rt: &R,
    job: Job<'_, 'a>,
    captures: RunCaptures<'a, R::File, R::Reader>,
    sieve: &mut S,
    watch: &mut T,
    failed: &mut FailedOutputs,
) -> Result<Done<R::File>, Failure<'a>>
    requires told { IfSome job.changes (λ t. changes_in job.texts.now.changes.items ≡ Ok t.now) }
    requires rising { IfSome job.changes (λ t. EachBehind IsRising [] t.now) }
    requires ports { All IsUnread captures.ports.items }
    requires underlay { IsUnread captures.underlay }
    ensures run { IfOk result (λ _. IfSome job.entry.folder (λ _. (new_ports : List Stream) × (new_underlay : Stream)
        × IsRunInFiles R.File.contents
        (taken_with (S.taken sieve.old) (settings_in job.entry.texts.now.settings.items) (changes_in job.entry.texts.now.changes.items))
        (segments_run job.entry.scope)
        (settings_in job.entry.texts.now.settings.items) (changes_in job.entry.texts.now.changes.items)
        captures.entry.ports.items captures.entry.underlay new_ports new_underlay)) }
{
    let mut captures = captures;
    let part_file = match run_on_captures(rt, job, &mut captures, sieve, watch, failed) {
        Ok(part_file) => part_file,
        Err(failure) => return Err(failure),
    };
    match done_on(rt.alloc(), &captures, part_file) {
        Ok(done) => Ok(done),
        Err(error) => Err(Failure::from(error)),
    }
}

/// Runs on captures of which nothing is read yet. Of a part it answers the file in which it is to say what it was made from,
/// and the sums of its outputs.
///
/// The settings are looked at first, then the changes, and then the number of captures.
fn run_on_captures<'a, R: Files + Input + AllocGlobal, S: Sieve, T: Watch>(
    rt: &R,
    job: Job<'_, 'a>,
    captures: &mut RunCaptures<'a, R::File, R::Reader>,
    sieve: &mut S,
    watch: &mut T,
    failed: &mut FailedOutputs,
) -> Result<Option<PartRecordFile<R::File>>, Failure<'a>>
    requires told { IfSome job.changes (λ t. changes_in job.texts.now.changes.items ≡ Ok t.now) }
    requires rising { IfSome job.changes (λ t. EachBehind IsRising [] t.now) }
    requires ports { All IsUnread captures.old.ports.items }
    requires underlay { IsUnread captures.old.underlay }
    ensures run { IfOk result (λ _. IfSome job.entry.folder (λ _. IsRunInFiles R.File.contents
        (taken_with (S.taken sieve.old) (settings_in job.entry.texts.now.settings.items) (changes_in job.entry.texts.now.changes.items))
        (segments_run job.entry.scope)
        (settings_in job.entry.texts.now.settings.items) (changes_in job.entry.texts.now.changes.items)
        captures.old.ports.items captures.old.underlay captures.new.ports.items captures.new.underlay)) }
{
    let settings = match settings_of(rt.alloc(), job.texts.settings.as_slice()) {
        Ok(settings) => settings,
        Err(fault) => return Err(Failure::Run(of_settings(fault))),
    };
    if let Some(changes) = job.changes {
        let read = ReadJob {
            job,
            settings,
            changes,
        };
        return run_on_read(rt, read, captures, sieve, watch, failed);
    }
    match changes_of(rt.alloc(), job.texts.changes.as_slice()) {
        Ok(changes) => {
            let read = ReadJob {
                job,
                settings,
                changes: changes.as_slice(),
            };
            run_on_read(rt, read, captures, sieve, watch, failed)
        }
        Err(fault) => Err(Failure::Run(of_changes(fault))),
    }
}

/// The same with the settings and the changes that the texts mean.
fn run_on_read<'a, R: Files + Input + AllocGlobal, S: Sieve, T: Watch>(
    rt: &R,
    read: ReadJob<'_, 'a>,
    captures: &mut RunCaptures<'a, R::File, R::Reader>,
    sieve: &mut S,
    watch: &mut T,
    failed: &mut FailedOutputs,
) -> Result<Option<PartRecordFile<R::File>>, Failure<'a>>
    requires settings { settings_in read.job.texts.now.settings.items ≡ Ok read.settings }
    requires told { changes_in read.job.texts.now.changes.items ≡ Ok read.changes.now }
    requires rising { EachBehind IsRising [] read.changes.now }
    requires ports { All IsUnread captures.old.ports.items }
    requires underlay { IsUnread captures.old.underlay }
    ensures run { IfOk result (λ _. IfSome read.entry.job.folder (λ _. IsRunInFiles R.File.contents
        (taken_with (S.taken sieve.old) (settings_in read.entry.job.texts.now.settings.items)
        (changes_in read.entry.job.texts.now.changes.items))
        (segments_run read.entry.job.scope)
        (settings_in read.entry.job.texts.now.settings.items) (changes_in read.entry.job.texts.now.changes.items)
        captures.old.ports.items captures.old.underlay captures.new.ports.items captures.new.underlay)) }
{
    let ReadJob {
        job,
        settings,
        changes,
    } = read;
    if settings.ports().len() != captures.ports.len() {
        return Err(Failure::Run(RunFault::PortCount));
    }
    let all = SegmentSet::all();
    let run = RunJob {
        settings_text: job.texts.settings.as_slice(),
        changes_text: job.texts.changes.as_slice(),
        settings,
        changes,
        segments: segments_in(job.scope, &all),
    };
    let Some(folder) = job.folder else {
        if let Err(fault) = run_into_nothing(rt.alloc(), run, captures, sieve, watch) {
            return Err(failure_of(job.names, fault, captures));
        }
        return Ok(None);
    };
    let count = captures.ports.len();
    let outputs = match prepare_outputs(rt, job.names, folder, job.scope.is_part(), count) {
        Ok(outputs) => outputs,
        Err(failure) => return Err(failure),
    };
    let written = WrittenJob {
        names: job.names,
        run,
        outputs,
    };
    match run_into(rt.alloc(), written, captures, sieve, watch, failed) {
        Ok(files) => Ok(files.into_part_record()),
        Err(failure) => Err(failure),
    }
}

/// The segments that are run, where these are all.
fn segments_in<'s>(scope: Scope<'s>, all: &'s SegmentSet) -> &'s SegmentSet
    requires { all.now ≡ segments_run Whole }
    ensures { result.now ≡ segments_run scope.entry }
{
    match scope {
        Scope::Whole => all,
        Scope::Part(part) => part.segments,
    }
}
