//! The next record of a source.
ghost use Rattle.std.specs.Prelude.{◌≡◌, ◌≢◌, ◌≤◌, ◌+◌, ⊤, ℕ, false, length, not};
ghost use Rattle.pcap.specs.Source.{MatchRead, holds_next};
ghost use Rattle.timeline.specs.declared.source.Tap.{Tap as ATap};
ghost use Rattle.stream_run.specs.Fetched.{IsFetch, IsOpen, fetched};
ghost use Rattle.stream_run.specs.Steps.{FetchesFrom, IsAt, moment_at, source_at};
ghost use Rattle.stream_run.specs.Waiting.{IsOutBefore, TakesRead};

use crate::captures::Captures;
use crate::part::Next;
use overlay_config::TimedChange;
use pcap::stream::{Input, Output, Source, SourceFault};
use timeline::{RunOutputs, Tap};

/// Fetches the next record of a capture, the latest of those that came at this moment, and sets when it comes, if there is one.
/// Where it fails, what was set says nothing.
pub fn fetch<R: Input>(
    source: &mut Source<R>,
    latest: u64,
    next: &mut Option<u64>,
) -> Result<(), SourceFault>
    requires { IsOpen source.old.standing }
    ensures fetched { (tap : ATap) (done : ℕ) → IsFetch source.old source.new tap done latest (fetched tap done next.new result) }
    ensures lacked { MatchRead result (holds_next source.old ≡ false) ⊤ }
{
    if let Err(fault) = source.fill() {
        return Err(fault);
    }
    *next = match source.head() {
        Some(record) => Some(record.moment.max(latest)),
        None => None,
    };
    Ok(())
}

/// The moment of a change, where there is one of this index.
pub fn moment_of(changes: &[TimedChange], index: u64) -> Option<u64>
    ensures { result ≡ moment_at changes.now index }
{
    if index < changes.len() as u64 {
        Some(changes[index as usize].at)
    } else {
        None
    }
}

/// Asks a source, of which so many events came, the latest at this moment, for what comes next, and sets when, if there is more:
/// the changes, the ports, the underlay. The changes never fail. Where that takes a read which may wait, the outputs hold nothing
/// back. Where a read failed, it took one.
#[inline(always)]
pub fn fetch_at<R: Input, W: Output>(
    changes: &[TimedChange],
    captures: &mut Captures<R>,
    _outputs: &RunOutputs<W>,
    next: Next,
    when: &mut Option<u64>,
) -> Result<(), SourceFault>
    requires index { next.index ≤ length captures.old.ports.items + 1 }
    requires few { length captures.old.ports.items ≤ 255 }
    requires open { (place : ATap) → IsAt (length captures.old.ports.items) next.index place
        → IsOpen (source_at captures.old.ports.items captures.old.underlay place).standing }
    requires out { IsOutBefore captures.old.may_wait captures.old.ports.items captures.old.underlay next.index _outputs.now }
    ensures fetched { FetchesFrom changes.now next.index next.done next.moment captures.old.ports.items captures.old.underlay
        captures.new.ports.items captures.new.underlay when.new result }
    ensures lacked { MatchRead result (TakesRead captures.old.ports.items captures.old.underlay next.index) ⊤ }
    ensures many { length captures.new.ports.items ≡ length captures.old.ports.items }
    ensures may_wait { captures.new.may_wait ≡ captures.old.may_wait }
{
    if next.index == 0 {
        *when = moment_of(changes, next.done);
        return Ok(());
    }
    if next.index <= captures.ports.len() {
        return fetch(&mut captures.ports[next.index - 1], next.moment, when);
    }
    fetch(&mut captures.underlay, next.moment, when)
}

/// Whether the source with this index has to make a read for what comes next: a capture whose next record wasn't read ahead.
#[cold]
#[inline(never)]
pub fn takes_read<R: Input>(captures: &Captures<R>, index: usize) -> bool
    requires index { index ≤ length captures.now.ports.items + 1 }
    ensures change { index ≡ 0 → result ≡ false }
    ensures capture { (place : ATap) → IsAt (length captures.now.ports.items) index place
        → result ≡ not (holds_next (source_at captures.now.ports.items captures.now.underlay place)) }
{
    if index == 0 {
        return false;
    }
    if index <= captures.ports.len() {
        return !captures.ports[index - 1].holds_next();
    }
    !captures.underlay.holds_next()
}

/// Where the source with this index stands, behind the changes: one of so many ports, or the underlay.
pub fn tap_at(ports: usize, index: usize) -> Tap
    requires few { ports ≤ 255 }
    requires index { index ≤ ports + 1 }
    ensures { index ≢ 0 → IsAt ports index result }
{
    if index <= ports {
        Tap::Port(index as u8)
    } else {
        Tap::Underlay
    }
}
