//! How a run over streams begins: with the headers of its outputs, and the first record of each capture.
ghost use Rattle.std.specs.Prelude.{◌≡◌, ◌≤◌, ◌<◌, ◌+◌, ◌++◌, ◌^◌, ℕ, List, [], length, slice_index_or, slice_set, true, IfOk, OnOk};
ghost use Rattle.timeline.specs.declared.source.Tap.{Tap as ATap};
ghost use Rattle.endpoint_core.specs.Step.{State};
ghost use Rattle.pcap.specs.Written.{written_header};
ghost use Rattle.capture_run.specs.Outputs.{Outputs as Texts};
ghost use Rattle.capture_run.specs.Writing.{empty_outputs};
ghost use Rattle.stream_run.specs.Begun.{AreAtFirst, OnlyReads, first_turns};
ghost use Rattle.stream_run.specs.Fetched.{IsOpen};
ghost use Rattle.stream_run.specs.Over.{BeginsIn};
ghost use Rattle.stream_run.specs.Read.{ReadsWith};
ghost use Rattle.stream_run.specs.Stage.{Drains, Lead, StandAt, no_texts};
ghost use Rattle.stream_run.specs.Steps.{AreReady, AreTimely, IsAt, run_at, source_at};
ghost use Rattle.stream_run.specs.Waiting.{AllOut};

use crate::captures::Captures;
use crate::fault::{StreamFault, Target, fault_at};
use crate::fetch::{fetch_at, moment_of, tap_at};
use crate::hand_on::hand_on_all;
use crate::part::Next;
use crate::turn::{Turn, Upcoming};
use overlay_config::TimedChange;
use pcap::stream::{Input, Output};
use std::alloc::{AllocError, Global};
use timeline::RunOutputs;

/// Writes the header of the capture of the port with this index, from 0.
fn begin_port<W: Output>(outputs: &mut RunOutputs<W>, index: usize) -> Result<(), Target>
    requires there { index < length outputs.old.ports }
    requires few { index < 255 }
    ensures begun { (start : Drains) (o : Texts) → StandAt start outputs.old o
        → Lead start outputs.new o (record o
        { ports = slice_set o.ports index (slice_index_or o.ports index [] ++ written_header) }) result }
    ensures many { length outputs.new.ports ≡ length outputs.old.ports }
{
    if let Err(_) = outputs.ports[index].begin() {
        return Err(Target::Port(index as u8 + 1));
    }
    Ok(())
}

/// Writes the header of the underlay's capture.
fn begin_underlay<W: Output>(outputs: &mut RunOutputs<W>) -> Result<(), Target>
    ensures { (start : Drains) (o : Texts) → StandAt start outputs.old o
        → Lead start outputs.new o (record o { underlay = o.underlay ++ written_header }) result }
{
    if let Err(_) = outputs.underlay.begin() {
        return Err(Target::Underlay);
    }
    Ok(())
}

/// Writes the headers of the ports' captures, rising, and then that of the underlay's.
fn put_headers<W: Output>(outputs: &mut RunOutputs<W>) -> Result<(), Target>
    requires { length outputs.old.ports ≤ 255 }
    ensures { (start : Drains) → StandAt start outputs.old (no_texts (length outputs.old.ports))
        → Lead start outputs.new (no_texts (length outputs.old.ports)) (empty_outputs (length outputs.old.ports)) result }
{
    for index in 0..outputs.ports.len() {
        if let Err(target) = begin_port(outputs, index) {
            return Err(target);
        }
    }
    begin_underlay(outputs)
}

/// The same, and hands them on where the reads behind may wait.
pub fn begin_all<W: Output>(outputs: &mut RunOutputs<W>, may_wait: bool) -> Result<(), Target>
    requires { length outputs.old.ports ≤ 255 }
    ensures begun { (start : Drains) → StandAt start outputs.old (no_texts (length outputs.old.ports))
        → Lead start outputs.new (no_texts (length outputs.old.ports)) (empty_outputs (length outputs.old.ports)) result }
    ensures out { OnOk result (may_wait ≡ true → AllOut outputs.new) }
{
    if let Err(target) = put_headers(outputs) {
        return Err(target);
    }
    if may_wait {
        return hand_on_all(outputs);
    }
    Ok(())
}

/// Where the changes and so many captures stand before the first fetch.
pub fn first_turns(
    alloc: Global,
    changes: &[TimedChange],
    captures: usize,
) -> Result<Vec<Turn>, AllocError>
    requires few { captures < 2 ^ 32 }
    requires timely { AreTimely changes.now }
    ensures { IfOk result (λ turns. turns.items ≡ first_turns changes.now captures) }
{
    let nothing = Turn {
        done: 0,
        next: Upcoming::none(),
    };
    let mut turns = vec![in alloc; nothing; captures + 1]?;
    turns[0].next = Upcoming::at(moment_of(changes, 0));
    Ok(turns)
}

/// Fetches the first record of each port's capture, rising, and then of the underlay's.
pub fn fetch_all<R: Input, W: Output>(
    changes: &[TimedChange],
    captures: &mut Captures<R>,
    outputs: &RunOutputs<W>,
    turns: &mut [Turn],
) -> Result<(), StreamFault>
    requires few { length captures.old.ports.items ≤ 255 }
    requires size { length turns.old ≡ length captures.old.ports.items + 2 }
    requires open { (place : ATap) (index : ℕ) → IsAt (length captures.old.ports.items) index place
        → IsOpen (source_at captures.old.ports.items captures.old.underlay place).standing }
    requires out { captures.old.may_wait ≡ true → AllOut outputs.now }
    ensures may_wait { captures.new.may_wait ≡ captures.old.may_wait }
    ensures ready { (state : State) (d : Drains) → state.moment ≡ 0
        → AreReady changes.now 0 (run_at captures.old.ports.items captures.old.underlay turns.old state 0 d)
        → OnOk result (AreReady changes.now 0 (run_at captures.new.ports.items captures.new.underlay turns.new state 0 d)) }
    ensures told { (texts : List (List ℕ)) (text : List ℕ)
        → AreAtFirst texts text captures.old.ports.items captures.old.underlay
        → BeginsIn texts text turns.new captures.new.ports.items captures.new.underlay result }
    ensures many { length captures.new.ports.items ≡ length captures.old.ports.items }
    ensures reads { ReadsWith captures.old.ports.items captures.old.underlay captures.new.ports.items captures.new.underlay result }
    ensures only_reads { OnlyReads result }
{
    for index in 1..turns.len() {
        let next = Next {
            index,
            moment: 0,
            done: 0,
        };
        let mut when = None;
        if let Err(fault) = fetch_at(changes, captures, outputs, next, &mut when) {
            return Err(fault_at(tap_at(turns.len() - 2, index), 1, fault));
        }
        turns[index] = Turn {
            done: 0,
            next: Upcoming::at(when),
        };
    }
    Ok(())
}
