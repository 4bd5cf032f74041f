//! Runs over streams.
ghost use Rattle.std.specs.Prelude.{◌≡◌, ◌≤◌, ◌+◌, ℕ, List, [], All, Ok, Vec as AVec, length};
ghost use Rattle.std.specs.declared.alloc.Global.{Global as AGlobal};
ghost use Rattle.overlay_config.specs.Change.{IsRising, changes_in};
ghost use Rattle.overlay_config.specs.Settings.{settings_in};
ghost use Rattle.overlay.specs.Rules.{EachBehind};
ghost use Rattle.overlay.specs.Settings.{Settings};
ghost use Rattle.endpoint_core.specs.Kept.{state_of};
ghost use Rattle.endpoint_core.specs.Opened.{settings_told};
ghost use Rattle.stream_run.specs.Begun.{IsUnread, first_turns};
ghost use Rattle.stream_run.specs.Done.{IsDone};
ghost use Rattle.stream_run.specs.Left.{AnswersSieved, CanBegin, IsOpenedWith, WritesWith, ends};
ghost use Rattle.stream_run.specs.Over.{IsRunOverSieved, Tells};
ghost use Rattle.stream_run.specs.Reached.{IsReachedOverSieved};
ghost use Rattle.stream_run.specs.Read.{ReadsWith};
ghost use Rattle.stream_run.specs.Steps.{AreTimely};
ghost use Rattle.stream_run.specs.Waiting.{AllOut, IsOutAtRead};
ghost use Rattle.stream_run.specs.Watched.{GoesOver, IsShownSieved, IsWatchedOverSieved};

use crate::begin::{begin_all, fetch_all, first_turns};
use crate::captures::Captures;
use crate::cuts::put_cuts_among;
use crate::fault::StreamFault;
use crate::job::Job;
use crate::opening::open_all;
use crate::part::{Part, Taker};
use crate::sieve::Sieve;
use crate::step::put_events;
use crate::watch::Watch;
use capture_run::RunFault;
use decision_lines::{Scratch, most_of_a_line};
use endpoint_core::Endpoint;
use pcap::stream::{Input, Output};
use std::alloc::Global;
use timeline::RunOutputs;

/// Runs an endpoint with the settings of a text over the captures of its local ports, port 1 first, and of its underlay,
/// with the changes of a text at their moments. Both texts were read before; no text is read here.
///
/// Events come in order of moment; those of one moment as the changes, the ports rising, the underlay. What comes of each
/// is written before the next record of its capture is read: records to the sinks, its line to the decisions. The number of
/// captures is looked at before anything is read or written. Then all captures are opened, the headers written, and the events
/// taken one after another; the lines of cut captures come last. Where it stops at a fault, what was written stands: the texts
/// of the events so far, the same events for all outputs, and where a write failed at most a part of those of one event more.
/// `OutOfMemory` comes before anything is read or written, where memory is refused, or behind event 2^64 - 3, where no number is
/// left. Where reads may wait, all that was written is out before each that does: so nothing is held back where one fails.
///
/// It is told to the segments of the job. A frame or a packet that comes to another segment, or is refused in one, is read and
/// numbered as ever, but not decided: nothing is written of it. A change that isn't told is made all the same, for it may be one
/// of settings that all segments stand on; so the settings are at each event those of the whole run. The lines of cut captures
/// stand in the part that has what comes to no segment.
///
/// A sieve is asked about each event in order of moment. What it leaves out is read as ever, and counts in the numbers of its own
/// capture, but it's not numbered in the run, shown, put to the endpoint or written. So a fault is answered as if nothing were
/// left out, and behind it stand the texts of what was taken in of the events in front. `OutOfMemory` comes behind event
/// 2^64 - 3, taken in or not.
///
/// Whoever looks on is shown each event just before the endpoint takes it and told the answer just behind, or shown it as passed
/// over, and once all lines are written it is shown the endpoint. Where the run stops at a fault, that was so of the events so
/// far, and where a write failed of the one more, but the end wasn't shown.
pub fn run<R: Input, W: Output, S: Sieve, T: Watch>(
    alloc: Global,
    job: Job,
    captures: &mut Captures<R>,
    outputs: &mut RunOutputs<W>,
    sieve: &mut S,
    watch: &mut T,
) -> Result<(), StreamFault>
    requires settings { settings_in job.settings_text.now ≡ Ok job.settings }
    requires told { changes_in job.changes_text.now ≡ Ok job.changes.now }
    requires rising { EachBehind IsRising [] job.changes.now }
    requires sinks { length outputs.old.ports ≡ length captures.old.ports.items }
    requires new_ports { All IsUnread captures.old.ports.items }
    requires new_underlay { IsUnread captures.old.underlay }
    ensures run { AnswersSieved (S.taken sieve.old (settings_told job.entry.settings) job.entry.changes.now)
        job.entry.segments.now (settings_in job.entry.settings_text.now)
        (changes_in job.entry.changes_text.now)
        (ends captures.old.ports.items captures.old.underlay outputs.old)
        (ends captures.new.ports.items captures.new.underlay outputs.new) result }
    ensures over { (texts : List (AVec ℕ AGlobal)) (text : List ℕ) → Tells captures.old.ports.items captures.old.underlay texts text
        → IsRunOverSieved (S.taken sieve.old (settings_told job.entry.settings) job.entry.changes.now)
        job.entry.segments.now (settings_in job.entry.settings_text.now)
        (changes_in job.entry.changes_text.now) texts text outputs.old outputs.new result }
    ensures reached { (texts : List (AVec ℕ AGlobal)) (text : List ℕ) → Tells captures.old.ports.items captures.old.underlay texts text
        → IsReachedOverSieved (S.taken sieve.old (settings_told job.entry.settings) job.entry.changes.now)
        job.entry.segments.now (settings_in job.entry.settings_text.now)
        (changes_in job.entry.changes_text.now) texts text outputs.old outputs.new captures.new.ports.items
        captures.new.underlay result }
    ensures shown { IsShownSieved (S.taken sieve.old (settings_told job.entry.settings) job.entry.changes.now)
        job.entry.segments.now T.sees T.ends (settings_in job.entry.settings_text.now)
        (changes_in job.entry.changes_text.now) captures.old.ports.items outputs.old outputs.new watch.old watch.new result }
    ensures watched { (texts : List (AVec ℕ AGlobal)) (text : List ℕ) → Tells captures.old.ports.items captures.old.underlay texts text
        → IsWatchedOverSieved (S.taken sieve.old (settings_told job.entry.settings) job.entry.changes.now)
        job.entry.segments.now T.sees T.ends (settings_in job.entry.settings_text.now)
        (changes_in job.entry.changes_text.now) texts text outputs.old outputs.new watch.old watch.new result }
    ensures sieved { (texts : List (AVec ℕ AGlobal)) (text : List ℕ) → Tells captures.old.ports.items captures.old.underlay texts text
        → GoesOver S.goes (settings_in job.entry.settings_text.now) (changes_in job.entry.changes_text.now) texts text
        sieve.old sieve.new result }
    ensures many { length captures.new.ports.items ≡ length captures.old.ports.items }
    ensures reads { ReadsWith captures.old.ports.items captures.old.underlay captures.new.ports.items captures.new.underlay result }
    ensures waits { AllOut outputs.old → IsOutAtRead captures.old.may_wait outputs.new result }
    ensures writes { WritesWith outputs.old outputs.new result }
{
    if captures.ports.len() != job.settings.ports().len() {
        return Err(StreamFault::Run(RunFault::PortCount));
    }
    run_with(alloc, job, captures, outputs, sieve, watch)
}

/// The run on as many captures as there are ports.
fn run_with<R: Input, W: Output, S: Sieve, T: Watch>(
    alloc: Global,
    job: Job,
    captures: &mut Captures<R>,
    outputs: &mut RunOutputs<W>,
    sieve: &mut S,
    watch: &mut T,
) -> Result<(), StreamFault>
    requires few { length captures.old.ports.items ≤ 255 }
    requires ports { length captures.old.ports.items ≡ length job.settings.ports }
    requires sinks { length outputs.old.ports ≡ length captures.old.ports.items }
    requires timely { AreTimely job.changes.now }
    requires new_ports { All IsUnread captures.old.ports.items }
    requires new_underlay { IsUnread captures.old.underlay }
    ensures done { IsDone job.entry.segments.now S.taken S.goes T.sees T.ends job.entry.settings job.entry.changes.now
        captures.old.ports.items captures.old.underlay captures.new.ports.items captures.new.underlay outputs.old outputs.new
        sieve.old sieve.new watch.old watch.new result }
    ensures many { length captures.new.ports.items ≡ length captures.old.ports.items }
    ensures reads { ReadsWith captures.old.ports.items captures.old.underlay captures.new.ports.items captures.new.underlay result }
    ensures waits { AllOut outputs.old → IsOutAtRead captures.old.may_wait outputs.new result }
{
    let Job {
        settings,
        changes,
        segments,
        ..
    } = job;
    let part = Part { changes, segments };
    let Ok(turns) = first_turns(alloc, part.changes, captures.ports.len() + 1) else {
        return Err(StreamFault::Run(RunFault::OutOfMemory));
    };
    let Ok(endpoint) = Endpoint::open(alloc, settings) else {
        return Err(StreamFault::Run(RunFault::OutOfMemory));
    };
    let flood = endpoint.under().settings().limits.flood;
    let mut taker = Taker {
        turns,
        endpoint,
        scratch: Scratch::new(),
        most_of_a_line: most_of_a_line(captures.ports.len(), flood),
    };
    run_on(&part, captures, &mut taker, outputs, sieve, watch)
}

/// The run with an endpoint that was opened just now, whose steps are lent what they need.
fn run_on<R: Input, W: Output, S: Sieve, T: Watch>(
    part: &Part,
    captures: &mut Captures<R>,
    taker: &mut Taker,
    outputs: &mut RunOutputs<W>,
    sieve: &mut S,
    watch: &mut T,
) -> Result<(), StreamFault>
    requires few { length captures.old.ports.items ≤ 255 }
    requires opened { CanBegin captures.old.ports.items (state_of taker.old.endpoint) }
    requires turns { taker.old.turns.items ≡ first_turns part.now.changes.now (length captures.old.ports.items + 1) }
    requires number { taker.old.scratch.number ≡ 0 }
    requires sinks { length outputs.old.ports ≡ length captures.old.ports.items }
    requires timely { AreTimely part.now.changes.now }
    requires new_ports { All IsUnread captures.old.ports.items }
    requires new_underlay { IsUnread captures.old.underlay }
    ensures done { (settings : Settings) → IsOpenedWith settings captures.old.ports.items (state_of taker.old.endpoint)
        → IsDone part.now.segments.now S.taken S.goes T.sees T.ends settings part.now.changes.now captures.old.ports.items
        captures.old.underlay captures.new.ports.items captures.new.underlay outputs.old outputs.new sieve.old sieve.new
        watch.old watch.new result }
    ensures many { length captures.new.ports.items ≡ length captures.old.ports.items }
    ensures reads { ReadsWith captures.old.ports.items captures.old.underlay captures.new.ports.items captures.new.underlay result }
    ensures waits { AllOut outputs.old → IsOutAtRead captures.old.may_wait outputs.new result }
{
    if let Err(fault) = open_all(captures) {
        return Err(fault);
    }
    if let Err(target) = begin_all(outputs, captures.may_wait) {
        return Err(StreamFault::Write(target));
    }
    let turns = taker.turns.as_mut_slice();
    if let Err(fault) = fetch_all(part.changes, captures, outputs, turns) {
        return Err(fault);
    }
    if let Err(fault) = put_events(part, captures, taker, outputs, sieve, watch) {
        return Err(fault);
    }
    let turns = taker.turns.as_slice();
    let line = &mut taker.scratch.line;
    match put_cuts_among(part.segments, captures, turns, line, outputs) {
        Ok(()) => {
            watch.end(&taker.endpoint);
            Ok(())
        }
        Err(target) => Err(StreamFault::Write(target)),
    }
}
