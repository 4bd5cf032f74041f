//! Runs, with whoever looks on for what is told besides their outputs.
ghost use Rattle.std.specs.Prelude.{◌≡◌, [], Ok, IfSome};
ghost use Rattle.overlay_config.specs.Change.{IsRising, changes_in};
ghost use Rattle.overlay.specs.Rules.{EachBehind};

use crate::audit::RunAudit;
use crate::directions::{LeavesOut, sieve_for, tell_left_out};
use crate::onlookers::{LookedOn, Onlookers, Written, finish_aside, leave_aside, onlookers_of};
use crate::outbound::tell_outbound;
use crate::progress::progress_of;
use crate::texts::{print_told, tell_all, tell_missing};
use both_ways::{Audited, BothWays, Nobody};
use overlay_config::TimedChange;
use program_files::{Destination, FailedOutputs, Failure, Names};
use run_progress::{Progress, Screen};
use runs_on_files::{Job, ListedPart, Ran, Scope, Texts, run_on_files};
use segment_set::SegmentSet;
use std::io::Input;
use std::rt::Files;
use std::time::Clock;
use stream_run::{Sieve, TakesAll, Unwatched, Watch};
use text_calls::segments_of;

/// What is asked for of a run.
#[derive(Clone, Copy)]
pub struct Asked<'n, 'a> {
    /// Why the events of these names came out as they did.
    pub why: &'n [&'a str],
    /// The tables at a moment.
    pub tables_at: Option<u64>,
    /// The tables at the end.
    pub tables: bool,
    /// What was counted.
    pub summary: bool,
    /// Who sent to whom.
    pub talkers: bool,
    /// The list of a part's segments.
    pub segments: Option<&'a str>,
    /// How long behind its frame what the switch sent may come, in nanoseconds, where that is to be left out.
    pub within: Option<u64>,
    /// The file of the list of that, where there is one.
    pub list: Option<&'a str>,
    /// Whether all is told as JSON, too.
    pub json: bool,
    /// Whether no progress is shown.
    pub quiet: bool,
    /// The file of its view, where there is one.
    pub pcapng: Option<&'a str>,
}

impl Asked<'_, '_> {
    /// Whether nothing is printed besides the outputs.
    pub(crate) fn is_nothing(self) -> bool {
        !self.wants_reports() && !self.summary && !self.talkers
    }

    /// Whether stories or tables are printed.
    pub(crate) fn wants_reports(self) -> bool {
        !self.why.is_empty() || self.tables_at.is_some() || self.tables
    }

    /// Whether nothing is written but the outputs that each run has.
    pub(crate) fn writes_nothing_more(self) -> bool {
        !self.json && self.pcapng.is_none()
    }
}

/// A run on captures, and what is asked for of it.
#[derive(Clone, Copy)]
pub(crate) struct AskedJob<'j, 'n, 'a> {
    pub(crate) names: Names<'n, 'a>,
    pub(crate) texts: &'j Texts,
    /// Where its outputs are written, if they are.
    pub(crate) folder: Option<&'j str>,
    pub(crate) asked: Asked<'n, 'a>,
    /// Those of a part, or all.
    pub(crate) segments: &'j SegmentSet,
}

/// Runs on captures, and prints what is asked for besides. Where standard error is a terminal, it shows how far the run is.
pub fn run_and_tell<'a, R: Files + Input + AllocGlobal + Print + Eprint + Clock + Screen>(
    rt: &R,
    names: Names<'_, 'a>,
    folder: Option<&str>,
    asked: Asked<'_, 'a>,
    failed: &mut FailedOutputs,
) -> Result<(), Failure<'a>> {
    let texts = Texts::read(rt, names)?;
    let segments = segments_of(asked.segments)?;
    let progress = progress_of(rt, names, asked.quiet);
    let job = AskedJob {
        names,
        texts: &texts,
        folder,
        asked,
        segments: &segments,
    };
    // A fault stands on the first line of standard error, so that what was left out is told behind a run that is done alone.
    let Some(sieve) = sieve_for(rt.alloc(), asked.within)? else {
        let ran = run_plain(rt, job, &mut TakesAll, &mut Unwatched, progress, failed)?;
        tell_outbound(rt, ran.outbound.as_slice());
        return Ok(());
    };
    if asked.list.is_some() || !asked.why.is_empty() {
        return run_audited(rt, job, sieve, progress, failed);
    }
    let mut sieve = sieve;
    let ran = run_plain(rt, job, &mut sieve, &mut Nobody, progress, failed)?;
    tell_outbound(rt, ran.outbound.as_slice());
    tell_left_out(rt, &sieve, None, names.ports.len());
    Ok(())
}

/// The same on what a sieve takes in, where account is kept of what it leaves out.
#[inline(never)]
fn run_audited<'r, 'a, R: Files + Input + AllocGlobal + Print + Eprint + Clock>(
    rt: &'r R,
    job: AskedJob<'_, '_, 'a>,
    sieve: BothWays,
    progress: Option<Progress<'r, R>>,
    failed: &mut FailedOutputs,
) -> Result<(), Failure<'a>> {
    let audit = match RunAudit::new(rt, job) {
        Ok(audit) => audit,
        Err(failure) => return Err(failure),
    };
    let mut sieve = Audited { both: sieve, audit };
    let run = run_watched(rt, job, &mut sieve, progress, failed);
    let Audited { both, audit } = sieve;
    match run {
        Ok(ran) => {
            let placed = match audit.finish() {
                Ok(placed) => placed,
                Err(failure) => return Err(failure),
            };
            tell_outbound(rt, ran.outbound.as_slice());
            // A part doesn't know where the whole run sends frames of other segments.
            let placed = match job.asked.segments {
                Some(_) => None,
                None => placed.as_ref(),
            };
            tell_left_out(rt, &both, placed, job.names.ports.len());
            Ok(())
        }
        Err(failure) => {
            audit.leave();
            Err(failure)
        }
    }
}

/// Runs on what a sieve takes in of captures, and prints what is asked for besides. Who asks for nothing, and sees no progress, pays
/// nothing for it: nobody looks on.
fn run_plain<
    'r,
    'a,
    R: Files + Input + AllocGlobal + Print + Eprint + Clock,
    S: Sieve + LeavesOut,
    T: Watch,
>(
    rt: &'r R,
    job: AskedJob<'_, '_, 'a>,
    sieve: &mut S,
    nobody: &mut T,
    progress: Option<Progress<'r, R>>,
    failed: &mut FailedOutputs,
) -> Result<Ran<R::File>, Failure<'a>> {
    if job.asked.is_nothing() && job.asked.writes_nothing_more() && progress.is_none() {
        let run = run_asked(rt, job, None, sieve, nobody, failed);
        return finished(rt, run);
    }
    run_watched(rt, job, sieve, progress, failed)
}

/// Runs on what a sieve takes in of captures while someone looks on, and prints what is asked for besides.
#[inline(never)]
fn run_watched<
    'r,
    'a,
    R: Files + Input + AllocGlobal + Print + Eprint + Clock,
    S: Sieve + LeavesOut,
>(
    rt: &'r R,
    job: AskedJob<'_, '_, 'a>,
    sieve: &mut S,
    progress: Option<Progress<'r, R>>,
    failed: &mut FailedOutputs,
) -> Result<Ran<R::File>, Failure<'a>> {
    let read = job.texts.changes_read(rt.alloc())?;
    let changes = match &read {
        Some(changes) => Some(changes.as_slice()),
        None => None,
    };
    let mut onlookers = match onlookers_of(rt, job, changes.unwrap_or(&[]), progress) {
        Ok(onlookers) => onlookers,
        Err(failure) => return Err(failure),
    };
    let run = run_asked(rt, job, changes, sieve, &mut onlookers, failed);
    end_run(rt, job, onlookers, sieve, run)
}

/// Ends a run at which someone looked on: what was written beside it is handed on, and what was told is printed.
#[inline(never)]
fn end_run<'a, R: Files + AllocGlobal + Print + Eprint + Clock, S: LeavesOut>(
    rt: &R,
    job: AskedJob<'_, '_, 'a>,
    onlookers: Onlookers<'_, '_, '_, R>,
    sieve: &S,
    run: Result<Ran<R::File>, Failure<'a>>,
) -> Result<Ran<R::File>, Failure<'a>> {
    let (looked, aside) = onlookers.apart();
    match run {
        Ok(ran) => {
            let written = finish_aside(aside, sieve, ran.cut.as_slice());
            tell_done(rt, job, looked, written, sieve, ran)
        }
        Err(failure) => {
            leave_aside(aside);
            // What was told stands, wherever the run stopped.
            let _ = print_told(rt, job.asked.json, looked, sieve);
            Err(failure)
        }
    }
}

/// Tells what is asked for of a run that is done.
fn tell_done<'a, R: Files + AllocGlobal + Print + Eprint, S: LeavesOut>(
    rt: &R,
    job: AskedJob<'_, '_, 'a>,
    looked: Option<LookedOn<'_, '_>>,
    written: Written,
    sieve: &S,
    ran: Ran<R::File>,
) -> Result<Ran<R::File>, Failure<'a>> {
    let mut ran = ran;
    let Written { objects, view } = written;
    let found = tell_missing(rt, job.asked.why, &looked, sieve);
    let told = tell_all(rt, job, looked, objects, sieve, &mut ran);
    match told.and(view).and(found) {
        Ok(()) => Ok(ran),
        Err(failure) => Err(failure),
    }
}

/// A run that is done, and of a part what it was made from is written.
fn finished<'a, R: Files>(
    rt: &R,
    run: Result<Ran<R::File>, Failure<'a>>,
) -> Result<Ran<R::File>, Failure<'a>> {
    match run {
        Ok(ran) => {
            let mut ran = ran;
            match ran.finish(rt) {
                Ok(()) => Ok(ran),
                Err(failure) => Err(failure),
            }
        }
        Err(failure) => Err(failure),
    }
}

/// Runs on captures, all segments or a part's, and writes nothing where no folder is named. `changes` are those read before.
fn run_asked<'a, R: Files + Input + AllocGlobal, S: Sieve, T: Watch>(
    rt: &R,
    job: AskedJob<'_, '_, 'a>,
    changes: Option<&[TimedChange]>,
    sieve: &mut S,
    watch: &mut T,
    failed: &mut FailedOutputs,
) -> Result<Ran<R::File>, Failure<'a>>
    requires told { IfSome changes (λ t. changes_in job.texts.now.changes.items ≡ Ok t.now) }
    requires rising { IfSome changes (λ t. EachBehind IsRising [] t.now) }
{
    let AskedJob {
        names,
        texts,
        folder,
        asked,
        segments,
    } = job;
    let job = Job {
        names,
        texts,
        changes,
        folder: destination_of(folder, asked),
        scope: scope_of(asked, segments),
    };
    run_on_files(rt, job, sieve, watch, failed)
}

/// Where the outputs of a run are written, if they are.
fn destination_of<'f>(folder: Option<&'f str>, asked: Asked<'_, '_>) -> Option<Destination<'f>> {
    match folder {
        Some(name) => Some(Destination {
            name,
            objects: asked.json,
            prints: !asked.is_nothing(),
        }),
        None => None,
    }
}

/// Which segments are run, where the list means these.
fn scope_of<'s>(asked: Asked<'_, 's>, segments: &'s SegmentSet) -> Scope<'s> {
    match asked.segments {
        Some(list) => Scope::Part(ListedPart {
            list,
            segments,
            both: asked.within,
        }),
        None => Scope::Whole,
    }
}
