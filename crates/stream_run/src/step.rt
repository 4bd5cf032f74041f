//! The events of a run, one after another.
//!
//! Events are numbered in 64 bits. Behind event 2^64 - 3 the answer is OutOfMemory; at an event a nanosecond that is after 584
//! years.
ghost use Rattle.std.specs.Prelude.{◌≡◌, ◌≤◌, ◌<◌, ◌+◌, ◌-◌, ◌^◌, OnErr, OnOk, length, slice_index_or};
ghost use Rattle.endpoint_core.specs.Kept.{state_of};
ghost use Rattle.stream_run.specs.Sieved.{GoesBy, asked, taken_by};
ghost use Rattle.stream_run.specs.Steps.{AreReady, run_at};
ghost use Rattle.stream_run.specs.Turns.{IsFirst, first_of};
ghost use Rattle.stream_run.specs.declared.turn.Turn.{Turn as Stands};
ghost use Rattle.stream_run.specs.Waiting.{IsOutAtHalt, IsOutAtRead, IsOutOrAll};
ghost use Rattle.stream_run.specs.Watched.{IsPut, IsSievedRun};

use crate::captures::Captures;
use crate::fault::{Halt, StreamFault, stopped_at};
use crate::fetch::{fetch_at, tap_at};
use crate::letting::let_in;
use crate::order::find_first;
use crate::part::{Coming, Next, Part, Taker};
use crate::sieve::Sieve;
use crate::turn::{Turn, Upcoming};
use crate::watch::Watch;
use capture_run::RunFault;
use pcap::stream::{Input, Output};
use timeline::RunOutputs;

/// Puts the event that comes first through the endpoint, where the sieve takes it in, and shows it before, as passed over where
/// it isn't told to the part's segments; and fetches the next one of its source.
fn put_first<R: Input, W: Output, S: Sieve, T: Watch>(
    coming: Coming,
    captures: &mut Captures<R>,
    taker: &mut Taker,
    outputs: &mut RunOutputs<W>,
    sieve: &mut S,
    watch: &mut T,
) -> Result<(), Halt>
    requires few { taker.old.scratch.number + 2 < 2 ^ 64 }
    requires first { IsFirst taker.old.turns.items (length taker.old.turns.items) (first_of coming.next) }
    requires done { (t : Stands) → coming.next.done ≡ (slice_index_or taker.old.turns.items coming.next.index t).done }
    requires ready { AreReady coming.part.now.changes.now (2 ^ 64 - 3)
        (run_at captures.old.ports.items captures.old.underlay taker.old.turns.items (state_of taker.old.endpoint)
        taker.old.scratch.number outputs.old) }
    requires out { IsOutOrAll (S.all sieve.old) captures.old.may_wait outputs.old }
    ensures out { OnOk result (IsOutOrAll (S.all sieve.new) captures.new.may_wait outputs.new) }
    ensures waits { IsOutAtHalt captures.old.may_wait outputs.new result }
    ensures may_wait { captures.new.may_wait ≡ captures.old.may_wait }
    ensures step { IsPut coming.entry.part.now.segments.now (taken_by S.taken coming.entry.part.now.changes.now)
        (GoesBy S.goes coming.entry.part.now.changes.now) T.sees coming.entry.part.now.changes.now
        (run_at captures.old.ports.items captures.old.underlay taker.old.turns.items (state_of taker.old.endpoint)
        taker.old.scratch.number outputs.old)
        (run_at captures.new.ports.items captures.new.underlay taker.new.turns.items (state_of taker.new.endpoint)
        taker.new.scratch.number outputs.new)
        (first_of coming.entry.next) (asked sieve.old (state_of taker.old.endpoint).bridges.settings)
        (asked sieve.new (state_of taker.new.endpoint).bridges.settings) watch.old watch.new result }
    ensures many { length captures.new.ports.items ≡ length captures.old.ports.items }
    ensures turns { OnErr result (taker.new.turns ≡ taker.old.turns) }
{
    let Coming { part, next } = coming;
    if let Err(target) = let_in(coming, captures, outputs, taker, sieve, watch) {
        return Err(Halt::Write(target));
    }
    let next = Next {
        index: next.index,
        moment: next.moment,
        done: next.done + 1,
    };
    let mut when = None;
    if let Err(fault) = fetch_at(part.changes, captures, outputs, next, &mut when) {
        return Err(Halt::Source(fault));
    }
    taker.turns[next.index] = Turn {
        done: next.done,
        next: Upcoming::at(when),
    };
    Ok(())
}

/// Puts the changes and the records of all captures through an endpoint, in order of moment, as far as a sieve takes them in,
/// and shows each before, as passed over where it isn't told to the part's segments. It asks for no memory: `OutOfMemory` comes
/// behind event 2^64 - 3, the last that is numbered where each is taken in.
pub fn put_events<R: Input, W: Output, S: Sieve, T: Watch>(
    part: &Part,
    captures: &mut Captures<R>,
    taker: &mut Taker,
    outputs: &mut RunOutputs<W>,
    sieve: &mut S,
    watch: &mut T,
) -> Result<(), StreamFault>
    requires none { taker.old.scratch.number ≡ 0 }
    requires out { IsOutOrAll (S.all sieve.old) captures.old.may_wait outputs.old }
    requires ready { AreReady part.now.changes.now 0
        (run_at captures.old.ports.items captures.old.underlay taker.old.turns.items (state_of taker.old.endpoint) 0 outputs.old) }
    ensures run { IsSievedRun part.now.segments.now (taken_by S.taken part.now.changes.now) (GoesBy S.goes part.now.changes.now)
        T.sees part.now.changes.now
        (run_at captures.old.ports.items captures.old.underlay taker.old.turns.items (state_of taker.old.endpoint) 0 outputs.old)
        (run_at captures.new.ports.items captures.new.underlay taker.new.turns.items (state_of taker.new.endpoint)
        taker.new.scratch.number outputs.new)
        (asked sieve.old (state_of taker.old.endpoint).bridges.settings)
        (asked sieve.new (state_of taker.new.endpoint).bridges.settings) watch.old watch.new result }
    ensures waits { IsOutAtRead captures.old.may_wait outputs.new result }
    ensures many { length captures.new.ports.items ≡ length captures.old.ports.items }
{
    // at an event a nanosecond the numbers last for 584 years
    for _count in 0..u64::MAX - 2 {
        let Some(first) = find_first(taker.turns.as_slice()) else {
            return Ok(());
        };
        let Turn { done, .. } = taker.turns[first.index];
        let next = Next {
            index: first.index,
            moment: first.moment,
            done,
        };
        let coming = Coming { part: &*part, next };
        if let Err(halt) = put_first(coming, captures, taker, outputs, sieve, watch) {
            let tap = tap_at(taker.turns.len() - 2, first.index);
            return Err(stopped_at(tap, done + 2, halt));
        }
    }
    Err(StreamFault::Run(RunFault::OutOfMemory))
}
