//! What outputs hold back, handed on between events: the captures first and the lines behind them, so that no line leaves
//! before the records of its event.
//!
//! Where the lines' block has no room for the line of the next event, all blocks are handed on before the event is put, the
//! captures' first. A run asks for the room of its longest line (`stream_run`); a merge has read that line already, and asks for
//! its own. So a merge that is killed, or a full disk, leaves no line without its records.
//!
//! Where a read of a part may wait, all goes on before each: before the record that is copied or the line that is fetched, unless
//! it was read ahead whole. So whenever a merge waits, all that was merged stands outside.
ghost use Rattle.std.specs.Prelude.{◌≡◌, ℕ, List, [], OnOk, true};
ghost use Rattle.std.specs.Io.KnownBytes.{Keeps};
ghost use Rattle.pcap.specs.Sink.{Drain};
ghost use Rattle.timeline.specs.Drains.{PortsOut};
ghost use Rattle.part_merge.specs.Blame.{BlamesNoRead, CapturesWrite, LinesWrite, WritesWith};
ghost use Rattle.part_merge.specs.Left.{AreKept, UnlessDevice};
ghost use Rattle.part_merge.specs.Waiting.{AllOut, CapturesOut};

use crate::fault::{MergeFault, Target};
use pcap::stream::{Output, Sink};
use timeline::Tap;

/// How many ports a merge has at most.
const MOST_PORTS: usize = 255;

/// Hands on what the captures of the ports hold back, rising.
fn hand_on_ports<W: Output>(port_sinks: &mut [Sink<W>]) -> Result<(), MergeFault>
    ensures kept { UnlessDevice result ((underlay_sink : Drain) → AreKept port_sinks.old underlay_sink port_sinks.new underlay_sink) }
    ensures no_read { BlamesNoRead result }
    ensures out { OnOk result (PortsOut port_sinks.new) }
    ensures writes { (underlay_sink : Drain) (failures : ℕ)
        → WritesWith port_sinks.old underlay_sink failures port_sinks.new underlay_sink failures result }
{
    for i in 0..port_sinks.len().min(MOST_PORTS) {
        if let Err(_) = port_sinks[i].hand_on_held() {
            return Err(MergeFault::Write(Target::Capture(Tap::Port(i as u8 + 1))));
        }
    }
    Ok(())
}

/// Hands on what the capture of the underlay holds back.
fn hand_on_underlay<W: Output>(underlay_sink: &mut Sink<W>) -> Result<(), MergeFault>
    ensures kept { UnlessDevice result (Keeps underlay_sink.old.written underlay_sink.new.written) }
    ensures no_read { BlamesNoRead result }
    ensures out { OnOk result (underlay_sink.new.held ≡ []) }
    ensures writes { (sinks : List Drain) (failures : ℕ)
        → WritesWith sinks underlay_sink.old failures sinks underlay_sink.new failures result }
{
    match underlay_sink.hand_on_held() {
        Ok(()) => Ok(()),
        Err(_) => Err(MergeFault::Write(Target::Capture(Tap::Underlay))),
    }
}

/// Hands on the lines that are held back.
fn hand_on_lines<W: Output>(decisions: &mut W) -> Result<(), MergeFault>
    ensures kept { UnlessDevice result (Keeps (W.written decisions.old) (W.written decisions.new)) }
    ensures no_read { BlamesNoRead result }
    ensures out { OnOk result (W.held decisions.new ≡ []) }
    ensures writes { LinesWrite (W.failures decisions.old) (W.failures decisions.new) result }
{
    match decisions.hand_on_held() {
        Ok(()) => Ok(()),
        Err(_) => Err(MergeFault::Write(Target::Decisions)),
    }
}

/// Hands on what the captures hold back: those of the ports, rising, and that of the underlay.
fn hand_on_captures<W: Output>(
    port_sinks: &mut [Sink<W>],
    underlay_sink: &mut Sink<W>,
) -> Result<(), MergeFault>
    ensures kept { UnlessDevice result (AreKept port_sinks.old underlay_sink.old port_sinks.new underlay_sink.new) }
    ensures no_read { BlamesNoRead result }
    ensures out { OnOk result (CapturesOut port_sinks.new underlay_sink.new) }
    ensures writes { CapturesWrite port_sinks.old underlay_sink.old port_sinks.new underlay_sink.new result }
{
    if let Err(fault) = hand_on_ports(port_sinks) {
        return Err(fault);
    }
    hand_on_underlay(underlay_sink)
}

/// Hands on what the outputs hold back: the captures of the ports, rising, that of the underlay, and then the lines.
#[cold]
#[inline(never)]
pub(crate) fn hand_on_all<W: Output>(
    port_sinks: &mut [Sink<W>],
    underlay_sink: &mut Sink<W>,
    decisions: &mut W,
) -> Result<(), MergeFault>
    ensures kept { UnlessDevice result (AreKept port_sinks.old underlay_sink.old port_sinks.new underlay_sink.new
        × Keeps (W.written decisions.old) (W.written decisions.new)) }
    ensures no_read { BlamesNoRead result }
    ensures out { OnOk result (AllOut port_sinks.new underlay_sink.new (W.held decisions.new)) }
    ensures writes { WritesWith port_sinks.old underlay_sink.old (W.failures decisions.old) port_sinks.new underlay_sink.new
        (W.failures decisions.new) result }
{
    if let Err(fault) = hand_on_captures(port_sinks, underlay_sink) {
        return Err(fault);
    }
    hand_on_lines(decisions)
}

/// Hands on what the outputs hold back, where a read comes that may wait, or a line that has no room.
#[inline(always)]
pub(crate) fn hand_on_before<W: Output>(
    waits: bool,
    port_sinks: &mut [Sink<W>],
    underlay_sink: &mut Sink<W>,
    decisions: &mut W,
) -> Result<(), MergeFault>
    ensures kept { UnlessDevice result (AreKept port_sinks.old underlay_sink.old port_sinks.new underlay_sink.new
        × Keeps (W.written decisions.old) (W.written decisions.new)) }
    ensures no_read { BlamesNoRead result }
    ensures out { OnOk result (waits ≡ true → AllOut port_sinks.new underlay_sink.new (W.held decisions.new)) }
    ensures writes { WritesWith port_sinks.old underlay_sink.old (W.failures decisions.old) port_sinks.new underlay_sink.new
        (W.failures decisions.new) result }
{
    if waits {
        return hand_on_all(port_sinks, underlay_sink, decisions);
    }
    Ok(())
}

/// Hands on what the captures hold back, where a read comes that may wait, or lines that might have no room.
#[inline(always)]
pub(crate) fn hand_on_captures_before<W: Output>(
    waits: bool,
    port_sinks: &mut [Sink<W>],
    underlay_sink: &mut Sink<W>,
) -> Result<(), MergeFault>
    ensures kept { UnlessDevice result (AreKept port_sinks.old underlay_sink.old port_sinks.new underlay_sink.new) }
    ensures no_read { BlamesNoRead result }
    ensures out { OnOk result (waits ≡ true → CapturesOut port_sinks.new underlay_sink.new) }
    ensures writes { CapturesWrite port_sinks.old underlay_sink.old port_sinks.new underlay_sink.new result }
{
    if waits {
        return hand_on_captures(port_sinks, underlay_sink);
    }
    Ok(())
}

/// Hands on the lines that are held back, where a read comes that may wait.
#[inline(always)]
pub(crate) fn hand_on_lines_before<W: Output>(
    waits: bool,
    decisions: &mut W,
) -> Result<(), MergeFault>
    ensures kept { UnlessDevice result (Keeps (W.written decisions.old) (W.written decisions.new)) }
    ensures no_read { BlamesNoRead result }
    ensures out { OnOk result (waits ≡ true → W.held decisions.new ≡ []) }
    ensures writes { LinesWrite (W.failures decisions.old) (W.failures decisions.new) result }
{
    if waits {
        return hand_on_lines(decisions);
    }
    Ok(())
}
