//! A merge of parts.
ghost use Rattle.std.specs.Prelude.{◌≡◌, ◌≤◌, ◌<◌, ℕ, List, OnErr, OnOk, length, slice_index_or, true};
ghost use Rattle.std.specs.Io.KnownBytes.{Appends};
ghost use Rattle.std.specs.List.{concat};
ghost use Rattle.pcap.specs.Written.{written_header};
ghost use Rattle.timeline.specs.declared.timeline.Cut.{Cut};
ghost use Rattle.part_merge.specs.Blame.{BlamesNoRead, BlamesNoWrite, CapturesWrite, LinesWrite, ReadsWith, WritesWith};
ghost use Rattle.part_merge.specs.Coming.{OpenPart};
ghost use Rattle.part_merge.specs.Left.{AreAdded, UnlessDevice};
ghost use Rattle.part_merge.specs.Merged.{IsRising, Piece, merged, side_by_side, texts_of_pieces};
ghost use Rattle.part_merge.specs.Numbered.{AddsCuts, AddsEvents, AddsLine, AddsNumbered, AreRead, HaveNoEvent};
ghost use Rattle.part_merge.specs.Numbers.{UnlessMissing};
ghost use Rattle.part_merge.specs.Waiting.{AreOutAtRead, CapturesOut, IsOutAtRead};
ghost use Rattle.part_merge.specs.Whole.{Adds, AllHold, AllRise, AreParts, HaveAll, OnlyCuts, PutsAll, PutsAt, behind};

use crate::fault::{MergeFault, Target};
use crate::first::find_first;
use crate::hand_on::{hand_on_before, hand_on_captures_before};
use crate::part::Part;
use part_lines::PartFault;
use pcap::stream::{Input, Output, Sink};
use timeline::{RunOutputs, Tap};

/// How many octets the lines of a run's cut captures have at most: 256 lines of 30.
const MOST_OF_CUTS: usize = 7_680;

/// Puts the outputs of the parts of a run together, to outputs of as many captures.
///
/// Decision lines come in order of their events' numbers, and behind them those of cut captures, part by part; records in
/// the order that the lines tell. Where the parts hold the texts of a run's events, each event in one of them and numbered from
/// 1 on, the outputs hold the texts of all these events then, unless a read or a write fails. Where numbers from 1 to the last
/// are missing, the first of them is told. Everything else is a fault; what was written before it stands.
///
/// Whatever the parts hold: where it answers `Ok`, no line of theirs is left, and the lines that were written are those of
/// events numbered 1, 2 and so on, each number once, and behind them those of cut captures.
///
/// `may_wait`: whether a read of a part may wait, as those of regular files don't. Then all that was written is out before each
/// read that does: so nothing is held back where one fails.
///
/// Of parts that hold something else it notices what [`PartFault`] names: of a line its end, its number, its fields, its places
/// and its length; numbers that fall or stand twice; lines of cut captures in front of an event's, or more than 256; another
/// number of captures than the outputs; and of a capture what can't be read, fewer or more records than the lines tell, and one
/// that isn't whole. A number that is missing in front of a greater one is [`MergeFault::Missing`]. Nothing else is noticed:
/// neither other octets or another moment of a record, nor another word of a line, nor that a line stands in another part with
/// its records, nor that the last events are missing, nor that a part is of another run.
pub fn merge_streams<R: Input, W: Output>(
    parts: &mut [Part<R>],
    outputs: &mut RunOutputs<W>,
    may_wait: bool,
) -> Result<(), MergeFault>
    requires few { length outputs.old.ports ≤ 255 }
    ensures merged { (pieces : List (List Piece)) (cuts : List (List Cut)) → AreParts (length outputs.old.ports) pieces cuts parts.old
        → UnlessMissing result (merged pieces)
        (Adds (texts_of_pieces (length outputs.old.ports) (merged pieces) (side_by_side cuts)) outputs.old.ports outputs.old.underlay
        outputs.old.decisions.written outputs.new.ports outputs.new.underlay outputs.new.decisions.written) }
    ensures numbered { OnOk result (AddsNumbered outputs.old.decisions.written outputs.new.decisions.written) }
    ensures read { OnOk result (AreRead parts.new) }
    ensures reads { ReadsWith parts.old parts.new result }
    ensures writes { WritesWith outputs.old.ports outputs.old.underlay outputs.old.decisions.failures outputs.new.ports
        outputs.new.underlay outputs.new.decisions.failures result }
    ensures waits { IsOutAtRead may_wait outputs.new.ports outputs.new.underlay outputs.new.decisions.held result }
{
    let RunOutputs {
        ports,
        underlay,
        decisions,
    } = outputs;
    let ports = ports.as_mut_slice();
    if let Err(fault) = see_counts(parts, ports.len()) {
        return Err(fault);
    }
    if let Err(fault) = begin_all(ports, underlay) {
        return Err(fault);
    }
    if let Err(fault) = put_events(parts, ports, underlay, decisions, may_wait) {
        return Err(fault);
    }
    finish_all(parts, ports.len(), decisions, may_wait)
}

/// Sees that each part has as many captures as the outputs.
fn see_counts<R: Input>(parts: &[Part<R>], count: usize) -> Result<(), MergeFault>
    ensures all { OnOk result (HaveAll count parts.now) }
    ensures other { OnErr result (HaveAll count parts.now → ⊥) }
    ensures no_read { BlamesNoRead result }
    ensures no_write { BlamesNoWrite result }
{
    for (index, part) in parts.iter().enumerate() {
        if part.count() != count {
            return Err(MergeFault::Part(index, PartFault::Ports));
        }
    }
    Ok(())
}

/// Writes the headers of the captures, the ports' rising and then the underlay's.
fn begin_all<W: Output>(
    port_sinks: &mut [Sink<W>],
    underlay_sink: &mut Sink<W>,
) -> Result<(), MergeFault>
    requires { length port_sinks.old ≤ 255 }
    ensures begun { UnlessDevice result (AreAdded (λ tap. written_header) port_sinks.old underlay_sink.old port_sinks.new
        underlay_sink.new) }
    ensures no_read { BlamesNoRead result }
    ensures writes { CapturesWrite port_sinks.old underlay_sink.old port_sinks.new underlay_sink.new result }
{
    for i in 0..port_sinks.len() {
        if let Err(_) = port_sinks[i].begin() {
            return Err(MergeFault::Write(Target::Capture(Tap::Port(i as u8 + 1))));
        }
    }
    match underlay_sink.begin() {
        Ok(()) => Ok(()),
        Err(_) => Err(MergeFault::Write(Target::Capture(Tap::Underlay))),
    }
}

/// Puts the event that comes next in a part to the outputs. Where its line has no room beside those that are held back, all that
/// is held back is handed on before.
fn put_at<R: Input, W: Output>(
    parts: &mut [Part<R>],
    index: usize,
    port_sinks: &mut [Sink<W>],
    underlay_sink: &mut Sink<W>,
    decisions: &mut W,
    may_wait: bool,
) -> Result<(), MergeFault>
    requires there { index < length parts.old }
    requires count { (s : OpenPart) → length port_sinks.old ≡ length (slice_index_or parts.old index s).ports }
    ensures put { (s : OpenPart) → PutsAt parts.old index s parts.new port_sinks.old underlay_sink.old (W.written decisions.old)
        port_sinks.new underlay_sink.new (W.written decisions.new) result }
    ensures line { (s : OpenPart) → OnOk result
        (AddsLine (slice_index_or parts.old index s).coming (W.written decisions.old) (W.written decisions.new)) }
    ensures reads { ReadsWith parts.old parts.new result }
    ensures writes { WritesWith port_sinks.old underlay_sink.old (W.failures decisions.old) port_sinks.new underlay_sink.new
        (W.failures decisions.new) result }
    ensures waits { IsOutAtRead may_wait port_sinks.new underlay_sink.new (W.held decisions.new) result }
{
    let is_full = decisions.must_hand_on(parts[index].line().len());
    if let Err(fault) = hand_on_before(is_full, port_sinks, underlay_sink, decisions) {
        return Err(fault);
    }
    parts[index].put_event(index, port_sinks, underlay_sink, decisions, may_wait)
}

/// Puts the events of all parts to the outputs, in order of their numbers, of which none may be missing. Where reads may wait, or
/// the lines of cut captures might find no room, the captures hold nothing back behind the last of them.
fn put_events<R: Input, W: Output>(
    parts: &mut [Part<R>],
    port_sinks: &mut [Sink<W>],
    underlay_sink: &mut Sink<W>,
    decisions: &mut W,
    may_wait: bool,
) -> Result<(), MergeFault>
    requires { HaveAll (length port_sinks.old) parts.old }
    ensures counts { HaveAll (length port_sinks.old) parts.new }
    ensures events { (pieces : List (List Piece)) (cuts : List (List (List ℕ)))
        → AllHold (length port_sinks.old) pieces cuts parts.old → AllRise pieces → IsRising 0 (merged pieces)
        → UnlessMissing result (merged pieces)
        (PutsAll (length port_sinks.old) (merged pieces) cuts parts.new port_sinks.old underlay_sink.old
        (W.written decisions.old) port_sinks.new underlay_sink.new (W.written decisions.new)) }
    ensures numbered { OnOk result ((count : ℕ) × AddsEvents count (W.written decisions.old) (W.written decisions.new)) }
    ensures over { OnOk result (HaveNoEvent parts.new) }
    ensures reads { ReadsWith parts.old parts.new result }
    ensures writes { WritesWith port_sinks.old underlay_sink.old (W.failures decisions.old) port_sinks.new underlay_sink.new
        (W.failures decisions.new) result }
    ensures waits { IsOutAtRead may_wait port_sinks.new underlay_sink.new (W.held decisions.new) result }
    ensures out { OnOk result (may_wait ≡ true → CapturesOut port_sinks.new underlay_sink.new) }
{
    let mut last = 0;
    while let Some(first) = find_first(parts) {
        if first.number <= last {
            return Err(behind(last, first.index, first.number));
        }
        let next = last + 1;
        if first.number > next {
            return Err(MergeFault::Missing(next));
        }
        if let Err(fault) = put_at(
            parts,
            first.index,
            port_sinks,
            underlay_sink,
            decisions,
            may_wait,
        ) {
            return Err(fault);
        }
        last = first.number;
    }
    let is_full = decisions.must_hand_on(MOST_OF_CUTS);
    hand_on_captures_before(may_wait || is_full, port_sinks, underlay_sink)
}

/// What is wrong with a part whose event of this number comes behind one that is no smaller.
fn behind(last: u64, part: usize, number: u64) -> MergeFault
    requires { number ≤ last }
    ensures { result ≡ behind last part number }
{
    if number == last && number > 0 {
        MergeFault::Part(part, PartFault::Doubled(number))
    } else {
        MergeFault::Part(part, PartFault::Falls(number))
    }
}

/// Puts the lines of the cut captures of all parts to the decisions, part by part, and sees that nothing is left in any
/// capture.
fn finish_all<R: Input, W: Output>(
    parts: &mut [Part<R>],
    count: usize,
    decisions: &mut W,
    may_wait: bool,
) -> Result<(), MergeFault>
    requires few { count ≤ 255 }
    requires counts { HaveAll count parts.old }
    ensures cuts { (cuts : List (List (List ℕ))) → OnlyCuts count cuts parts.old
        → UnlessDevice result (Appends (W.written decisions.old) (W.written decisions.new) (concat (side_by_side cuts))) }
    ensures put { OnOk result (AddsCuts (W.written decisions.old) (W.written decisions.new)) }
    ensures over { OnOk result (HaveNoEvent parts.old → AreRead parts.new) }
    ensures reads { ReadsWith parts.old parts.new result }
    ensures writes { LinesWrite (W.failures decisions.old) (W.failures decisions.new) result }
    ensures waits { AreOutAtRead may_wait (W.held decisions.new) result }
{
    for index in 0..parts.len() {
        if let Err(fault) = parts[index].finish(index, decisions, may_wait) {
            return Err(fault);
        }
    }
    Ok(())
}
