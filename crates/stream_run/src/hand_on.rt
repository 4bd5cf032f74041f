//! What outputs hold back, handed on between events: the captures first and the lines behind them, so that no line leaves
//! before the records of its event.
//!
//! The lines' block goes on only behind those of all captures: where it has no room for one line more, 4,096 octets with up to
//! 16 ports and flood lists of up to 16 remotes and 59,134 with more, all blocks are handed on, the captures' first, behind the
//! event that was taken. So a run that is killed, or a full disk, leaves no line without its records. It costs one comparison an
//! event. A capture whose own block is full goes on alone, since records without their line harm nobody.
//!
//! Where a read may wait, all blocks go on before each: behind an event whose source's next record wasn't read ahead whole. So
//! whenever a run waits, everything that was decided stands outside, and a pipe that runs full costs this once for each 64 KiB.
//! Where events may be left out, all goes on behind each that is taken in, since behind one that is left out a write that fails
//! could not be told as its own.
ghost use Rattle.std.specs.Prelude.{◌≡◌, ◌≢◌, ◌≤◌, ◌<◌, ◌+◌, ℕ, [], false, not, true, OnOk, length, slice_index_or};
ghost use Rattle.pcap.specs.Sink.{Drain};
ghost use Rattle.pcap.specs.Source.{holds_next};
ghost use Rattle.timeline.specs.Drains.{PortsOut};
ghost use Rattle.timeline.specs.declared.source.Tap.{Tap as ATap};
ghost use Rattle.capture_run.specs.Outputs.{Outputs as Texts};
ghost use Rattle.stream_run.specs.Stage.{Drains, Lead, StandAt};
ghost use Rattle.stream_run.specs.Steps.{IsAt, source_at};
ghost use Rattle.stream_run.specs.Waiting.{AllOut, IsOutBefore, IsOutOrAll};

use crate::captures::Captures;
use crate::fault::Target;
use crate::fetch::takes_read;
use pcap::stream::{Input, Output};
use timeline::RunOutputs;

/// How many ports a run has at most.
const MOST_PORTS: usize = 255;

/// Hands on what the capture of the port with this index, from 0, holds back.
fn hand_on_port<W: Output>(outputs: &mut RunOutputs<W>, index: usize) -> Result<(), Target>
    requires there { index < length outputs.old.ports }
    requires few { index < 255 }
    ensures handed { (start : Drains) (o : Texts) → StandAt start outputs.old o → Lead start outputs.new o o result }
    ensures many { length outputs.new.ports ≡ length outputs.old.ports }
    ensures out { OnOk result ((x : Drain) → (slice_index_or outputs.new.ports index x).held ≡ []) }
    ensures others { (x : Drain) (k : ℕ) → k ≢ index → slice_index_or outputs.new.ports k x ≡ slice_index_or outputs.old.ports k x }
{
    if let Err(_) = outputs.ports[index].hand_on_held() {
        return Err(Target::Port(index as u8 + 1));
    }
    Ok(())
}

/// Hands on what the captures of the ports hold back.
fn hand_on_ports<W: Output>(outputs: &mut RunOutputs<W>) -> Result<(), Target>
    ensures out { OnOk result (PortsOut outputs.new.ports) }
    ensures handed { (start : Drains) (o : Texts) → StandAt start outputs.old o → Lead start outputs.new o o result }
{
    for index in 0..outputs.ports.len().min(MOST_PORTS) {
        if let Err(target) = hand_on_port(outputs, index) {
            return Err(target);
        }
    }
    Ok(())
}

/// Hands on what the capture of the underlay holds back.
fn hand_on_underlay<W: Output>(outputs: &mut RunOutputs<W>) -> Result<(), Target>
    ensures out { OnOk result (outputs.new.underlay.held ≡ []) }
    ensures ports { outputs.new.ports ≡ outputs.old.ports }
    ensures handed { (start : Drains) (o : Texts) → StandAt start outputs.old o → Lead start outputs.new o o result }
{
    if let Err(_) = outputs.underlay.hand_on_held() {
        return Err(Target::Underlay);
    }
    Ok(())
}

/// Hands on the lines that are held back, where the captures hold nothing back.
fn hand_on_lines<W: Output>(outputs: &mut RunOutputs<W>) -> Result<(), Target>
    requires ports { PortsOut outputs.old.ports }
    requires underlay { outputs.old.underlay.held ≡ [] }
    ensures out { OnOk result (outputs.new.decisions.held ≡ []) }
    ensures ports { outputs.new.ports ≡ outputs.old.ports }
    ensures underlay { outputs.new.underlay ≡ outputs.old.underlay }
    ensures handed { (start : Drains) (o : Texts) → StandAt start outputs.old o → Lead start outputs.new o o result }
{
    if let Err(_) = outputs.decisions.hand_on_held() {
        return Err(Target::Decisions);
    }
    Ok(())
}

/// Hands on what the outputs hold back: the captures of the ports, rising, that of the underlay, and then the lines.
pub fn hand_on_all<W: Output>(outputs: &mut RunOutputs<W>) -> Result<(), Target>
    ensures out { OnOk result (AllOut outputs.new) }
    ensures handed { (start : Drains) (o : Texts) → StandAt start outputs.old o → Lead start outputs.new o o result }
{
    if let Err(target) = hand_on_ports(outputs) {
        return Err(target);
    }
    if let Err(target) = hand_on_underlay(outputs) {
        return Err(target);
    }
    hand_on_lines(outputs)
}

/// Whether a read may wait behind an event of the source with this index: where its next record takes one, or where events may
/// be left out, since behind one that is nothing is handed on. Of regular files none does.
#[inline(always)]
fn may_wait_behind<R: Input>(captures: &Captures<R>, index: usize, takes_all: bool) -> bool
    requires index { index ≤ length captures.now.ports.items + 1 }
    ensures files { captures.now.may_wait ≡ false → result ≡ false }
    ensures some { captures.now.may_wait ≡ true → takes_all ≡ false → result ≡ true }
    ensures change { takes_all ≡ true → index ≡ 0 → result ≡ false }
    ensures capture { captures.now.may_wait ≡ true → takes_all ≡ true → (place : ATap)
        → IsAt (length captures.now.ports.items) index place
        → result ≡ not (holds_next (source_at captures.now.ports.items captures.now.underlay place)) }
{
    if !captures.may_wait {
        return false;
    }
    if !takes_all {
        return true;
    }
    takes_read(captures, index)
}

/// Whether all that is held back goes on behind an event of the source with this index: where the next line, of at most so many
/// octets, might find no room beside those that are held back, or where a read may wait.
#[inline(always)]
fn has_to_hand_on<R: Input, W: Output>(
    captures: &Captures<R>,
    outputs: &RunOutputs<W>,
    most_of_a_line: usize,
    index: usize,
    takes_all: bool,
) -> bool
    requires index { index ≤ length captures.now.ports.items + 1 }
    ensures before { result ≡ false → IsOutBefore captures.now.may_wait captures.now.ports.items captures.now.underlay index outputs.now }
    ensures behind { result ≡ false → IsOutOrAll takes_all captures.now.may_wait outputs.now }
{
    if outputs.decisions.must_hand_on(most_of_a_line) {
        return true;
    }
    may_wait_behind(captures, index, takes_all)
}

/// Hands on what is held back behind an event of the source with this index, where it has to go on: the next line has at most so
/// many octets.
#[inline(always)]
pub fn hand_on_behind<R: Input, W: Output>(
    captures: &Captures<R>,
    outputs: &mut RunOutputs<W>,
    most_of_a_line: usize,
    index: usize,
    takes_all: bool,
) -> Result<(), Target>
    requires index { index ≤ length captures.now.ports.items + 1 }
    ensures handed { (start : Drains) (o : Texts) → StandAt start outputs.old o → Lead start outputs.new o o result }
    ensures before { OnOk result (IsOutBefore captures.now.may_wait captures.now.ports.items captures.now.underlay index outputs.new) }
    ensures behind { OnOk result (IsOutOrAll takes_all captures.now.may_wait outputs.new) }
{
    if has_to_hand_on(captures, outputs, most_of_a_line, index, takes_all) {
        return hand_on_all(outputs);
    }
    Ok(())
}
