//! The records of one event.
ghost use Rattle.std.specs.Prelude.{◌≡◌, ◌≤◌, ◌++◌, ⊤, ℕ, List, [], OnOk, false, length, true};
ghost use Rattle.std.specs.Io.KnownBytes.{Keeps};
ghost use Rattle.pcap.specs.Sink.{Drain};
ghost use Rattle.pcap.specs.Source.{Stream, holds_next};
ghost use Rattle.timeline.specs.declared.source.Tap.{Tap as ATap};
ghost use Rattle.timeline.specs.declared.source.Tap.TheVariants.{Port};
ghost use Rattle.part_merge.specs.Blame.{BlamesNoWrite, CapturesRead, CapturesWrite, MatchRead, SinkWrites, SourceReads, WritesWith};
ghost use Rattle.part_merge.specs.Left.{AreAdded, AreLeft, IsAdded, IsLeft, IsTap, IsWritten, UnlessDevice};
ghost use Rattle.part_merge.specs.Moved.{AreRecords, Moves, taps};
ghost use Rattle.part_merge.specs.Merged.{at_tap, records_at};
ghost use Rattle.part_merge.specs.Waiting.{IsOutAtRead, TakesRead};

use crate::capture::{PartCapture, Stop};
use crate::fault::{MergeFault, Target};
use crate::hand_on::hand_on_before;
use part_lines::{PartFault, Places};
use pcap::stream::{Input, Output, Sink};
use timeline::Tap;

/// The captures of a part.
#[derive(Drop)]
pub(crate) struct Captures<R: Input> {
    /// Those of the ports, that of port 1 first.
    pub ports: Vec<PartCapture<R>>,
    pub underlay: PartCapture<R>,
}

/// Why a merge stops where a record of a capture of a part isn't copied.
pub(crate) fn stopped_at(part: usize, tap: Tap, stop: Stop) -> MergeFault
    ensures { result ≡ Rattle.part_merge.specs.Moved.stopped_at part tap stop }
{
    match stop {
        Stop::Read => MergeFault::Read(part),
        Stop::Write => MergeFault::Write(Target::Capture(tap)),
        Stop::Wrong(fault) => MergeFault::Part(part, PartFault::Capture(tap, fault)),
    }
}

/// Copies the next record of a capture of a part.
fn copy_record<R: Input, W: Output>(
    part: usize,
    tap: Tap,
    capture: &mut PartCapture<R>,
    sink: &mut Sink<W>,
) -> Result<(), MergeFault>
    ensures copied { (text rest : List ℕ) → IsWritten text → IsLeft (text ++ rest) capture.old
        → UnlessDevice result (IsLeft rest capture.new × IsAdded text sink.old sink.new) }
    ensures reads { SourceReads part capture.old capture.new result }
    ensures writes { SinkWrites tap sink.old sink.new result }
    ensures waits { MatchRead result (λ _. (holds_next capture.old ≡ false) × (sink.new ≡ sink.old)) ⊤ }
{
    match capture.copy(sink) {
        Ok(()) => Ok(()),
        Err(stop) => Err(stopped_at(part, tap, stop)),
    }
}

/// Copies the next record of the capture of a port of a part, where there is one of this number.
fn copy_port<R: Input, W: Output>(
    part: usize,
    port: u8,
    ports: &mut [PartCapture<R>],
    port_sinks: &mut [Sink<W>],
) -> Result<(), MergeFault>
    requires { length port_sinks.old ≡ length ports.old }
    ensures copied { (text : List ℕ) (rest : ATap → List ℕ) (underlay : Stream) (underlay_sink : Drain)
        → IsTap (length ports.old) (Port port) → IsWritten text
        → AreLeft (λ t. at_tap t (Port port) text ++ rest t) ports.old underlay
        → Moves rest (λ t. at_tap t (Port port) text) ports.new underlay port_sinks.old underlay_sink port_sinks.new underlay_sink result }
    ensures reads { (underlay : Stream) → CapturesRead part ports.old underlay ports.new underlay result }
    ensures writes { (underlay_sink : Drain) (failures : ℕ)
        → WritesWith port_sinks.old underlay_sink failures port_sinks.new underlay_sink failures result }
    ensures waits { (underlay : Stream)
        → MatchRead result (λ _. TakesRead ports.old underlay (Port port) × (port_sinks.new ≡ port_sinks.old)) ⊤ }
{
    let index = usize::from(port);
    if index == 0 || index > ports.len() {
        return Err(MergeFault::Part(part, PartFault::NoCapture(Tap::Port(port))));
    }
    copy_record(
        part,
        Tap::Port(port),
        &mut ports[index - 1],
        &mut port_sinks[index - 1],
    )
}

/// Copies the next record of a part's capture into that of the outputs.
fn copy_at<R: Input, W: Output>(
    part: usize,
    tap: Tap,
    ports: &mut [PartCapture<R>],
    underlay: &mut PartCapture<R>,
    port_sinks: &mut [Sink<W>],
    underlay_sink: &mut Sink<W>,
) -> Result<(), MergeFault>
    requires { length port_sinks.old ≡ length ports.old }
    ensures copied { (text : List ℕ) (rest : ATap → List ℕ) → IsTap (length ports.old) tap → IsWritten text
        → AreLeft (λ t. at_tap t tap text ++ rest t) ports.old underlay.old
        → Moves rest (λ t. at_tap t tap text) ports.new underlay.new port_sinks.old underlay_sink.old port_sinks.new
        underlay_sink.new result }
    ensures reads { CapturesRead part ports.old underlay.old ports.new underlay.new result }
    ensures writes { CapturesWrite port_sinks.old underlay_sink.old port_sinks.new underlay_sink.new result }
    ensures waits { MatchRead result (λ _. TakesRead ports.old underlay.old tap × (port_sinks.new ≡ port_sinks.old)
        × (underlay_sink.new ≡ underlay_sink.old)) ⊤ }
{
    match tap {
        Tap::Port(port) => copy_port(part, port, ports, port_sinks),
        Tap::Underlay => copy_record(part, tap, underlay, underlay_sink),
    }
}

/// Whether to copy the next record of the capture of a port takes a read. Where there is no capture of this number it takes none.
fn port_takes_read<R: Input>(port: u8, ports: &[PartCapture<R>]) -> bool
    ensures unless { (underlay : Stream) → result ≡ false → TakesRead ports.now underlay (Port port) → ⊥ }
    ensures only { (underlay : Stream) → result ≡ true → TakesRead ports.now underlay (Port port) }
{
    let number = usize::from(port);
    if number == 0 || number > ports.len() {
        return false;
    }
    !ports[number - 1].holds_next()
}

/// Whether to copy the next record of a capture of a part takes a read that may wait.
fn may_wait_for<R: Input>(
    may_wait: bool,
    tap: Tap,
    ports: &[PartCapture<R>],
    underlay: &PartCapture<R>,
) -> bool
    ensures unless { result ≡ false → may_wait ≡ true → TakesRead ports.now underlay.now tap → ⊥ }
    ensures only { result ≡ true → (may_wait ≡ true) × TakesRead ports.now underlay.now tap }
{
    if !may_wait {
        return false;
    }
    match tap {
        Tap::Port(port) => port_takes_read(port, ports),
        Tap::Underlay => !underlay.holds_next(),
    }
}

/// Copies the next record of a part's capture into that of the outputs. Where that takes a read which may wait, all that the
/// outputs hold back is handed on before.
fn copy_next<R: Input, W: Output>(
    part: usize,
    tap: Tap,
    captures: &mut Captures<R>,
    port_sinks: &mut [Sink<W>],
    underlay_sink: &mut Sink<W>,
    decisions: &mut W,
    may_wait: bool,
) -> Result<(), MergeFault>
    requires { length port_sinks.old ≡ length captures.old.ports.items }
    ensures ports { length captures.new.ports.items ≡ length captures.old.ports.items }
    ensures copied { (text : List ℕ) (rest : ATap → List ℕ) → IsTap (length captures.old.ports.items) tap → IsWritten text
        → AreLeft (λ t. at_tap t tap text ++ rest t) captures.old.ports.items captures.old.underlay
        → Moves rest (λ t. at_tap t tap text) captures.new.ports.items captures.new.underlay port_sinks.old underlay_sink.old
        port_sinks.new underlay_sink.new result }
    ensures kept { OnOk result (Keeps (W.written decisions.old) (W.written decisions.new)) }
    ensures reads { CapturesRead part captures.old.ports.items captures.old.underlay captures.new.ports.items
        captures.new.underlay result }
    ensures writes { WritesWith port_sinks.old underlay_sink.old (W.failures decisions.old) port_sinks.new underlay_sink.new
        (W.failures decisions.new) result }
    ensures waits { IsOutAtRead may_wait port_sinks.new underlay_sink.new (W.held decisions.new) result }
{
    let waits = may_wait_for(may_wait, tap, captures.ports.as_slice(), &captures.underlay);
    if let Err(fault) = hand_on_before(waits, port_sinks, underlay_sink, decisions) {
        return Err(fault);
    }
    copy_at(
        part,
        tap,
        captures.ports.as_mut_slice(),
        &mut captures.underlay,
        port_sinks,
        underlay_sink,
    )
}

/// Copies the next record of each of some places, in order. Before each read that may wait all that the outputs hold back is
/// handed on.
pub(crate) fn copy_all<R: Input, W: Output>(
    part: usize,
    places: Places<'_>,
    captures: &mut Captures<R>,
    port_sinks: &mut [Sink<W>],
    underlay_sink: &mut Sink<W>,
    decisions: &mut W,
    may_wait: bool,
) -> Result<(), MergeFault>
    requires { length port_sinks.old ≡ length captures.old.ports.items }
    ensures ports { length captures.new.ports.items ≡ length captures.old.ports.items }
    ensures copied { (records : List (ATap × List ℕ)) (rest : ATap → List ℕ) → places.entry ≡ taps records
        → AreRecords (length captures.old.ports.items) records
        → AreLeft (λ t. records_at t records ++ rest t) captures.old.ports.items captures.old.underlay
        → Moves rest (λ t. records_at t records) captures.new.ports.items captures.new.underlay port_sinks.old underlay_sink.old
        port_sinks.new underlay_sink.new result }
    ensures kept { OnOk result (Keeps (W.written decisions.old) (W.written decisions.new)) }
    ensures reads { CapturesRead part captures.old.ports.items captures.old.underlay captures.new.ports.items
        captures.new.underlay result }
    ensures writes { WritesWith port_sinks.old underlay_sink.old (W.failures decisions.old) port_sinks.new underlay_sink.new
        (W.failures decisions.new) result }
    ensures waits { IsOutAtRead may_wait port_sinks.new underlay_sink.new (W.held decisions.new) result }
{
    let mut places = places;
    while let Some(tap) = places.next_place() {
        if let Err(fault) = copy_next(
            part,
            tap,
            captures,
            port_sinks,
            underlay_sink,
            decisions,
            may_wait,
        ) {
            return Err(fault);
        }
    }
    Ok(())
}

/// Sees that nothing is left in the captures of a part.
pub(crate) fn end_captures<R: Input>(
    part: usize,
    ports: &mut [PartCapture<R>],
    underlay: &mut PartCapture<R>,
) -> Result<(), MergeFault>
    requires { length ports.old ≤ 255 }
    ensures ended { AreLeft (λ t. []) ports.old underlay.old → UnlessDevice result (Unit {0}) }
    ensures reads { CapturesRead part ports.old underlay.old ports.new underlay.new result }
    ensures no_write { BlamesNoWrite result }
{
    for i in 0..ports.len() {
        if let Err(stop) = ports[i].end() {
            return Err(stopped_at(part, Tap::Port(i as u8 + 1), stop));
        }
    }
    match underlay.end() {
        Ok(()) => Ok(()),
        Err(stop) => Err(stopped_at(part, Tap::Underlay, stop)),
    }
}
