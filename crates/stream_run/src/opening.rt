//! The opening of a run's captures.
//!
//! All are opened, ports rising and then the underlay, before the first record of each is read in the same order: so a capture
//! that can't be opened is named before a faulty record of an earlier one.
ghost use Rattle.std.specs.Prelude.{◌≡◌, ◌≤◌, ◌+◌, OnOk, All, length};
ghost use Rattle.pcap.specs.Source.{New};
ghost use Rattle.timeline.specs.declared.source.Tap.{Tap as ATap};
ghost use Rattle.stream_run.specs.Begun.{IsUnread, OpensAt, OpensInTurn, TellsHeader};
ghost use Rattle.stream_run.specs.Fetched.{IsOpen, ReadsOne};
ghost use Rattle.stream_run.specs.Read.{ReadsWith};
ghost use Rattle.stream_run.specs.Steps.{IsAt, source_at};

use crate::captures::Captures;
use crate::fault::{StreamFault, fault_at};
use pcap::stream::{Input, Source};
use timeline::Tap;

/// Opens a capture: it reads its global header.
pub fn open_capture<R: Input>(source: &mut Source<R>, tap: Tap) -> Result<(), StreamFault>
    requires { source.old.standing ≡ New }
    ensures open { OnOk result (IsOpen source.new.standing) }
    ensures reads { ReadsOne tap source.old source.new result }
    ensures header { TellsHeader tap source.old source.new result }
{
    match source.open() {
        Ok(()) => Ok(()),
        Err(fault) => Err(fault_at(tap, 1, fault)),
    }
}

/// Opens the source with this index, from 1: the ports, the underlay.
fn open_at<R: Input>(captures: &mut Captures<R>, index: usize) -> Result<(), StreamFault>
    requires first { 1 ≤ index }
    requires index { index ≤ length captures.old.ports.items + 1 }
    requires few { length captures.old.ports.items ≤ 255 }
    requires new { (place : ATap) → IsAt (length captures.old.ports.items) index place
        → IsUnread (source_at captures.old.ports.items captures.old.underlay place) }
    ensures opened { OpensAt index captures.old.ports.items captures.old.underlay captures.new.ports.items captures.new.underlay result }
    ensures many { length captures.new.ports.items ≡ length captures.old.ports.items }
    ensures may_wait { captures.new.may_wait ≡ captures.old.may_wait }
{
    if index <= captures.ports.len() {
        return open_capture(&mut captures.ports[index - 1], Tap::Port(index as u8));
    }
    open_capture(&mut captures.underlay, Tap::Underlay)
}

/// Opens the captures of the ports, rising, and then that of the underlay.
pub fn open_all<R: Input>(captures: &mut Captures<R>) -> Result<(), StreamFault>
    requires few { length captures.old.ports.items ≤ 255 }
    requires new_ports { All IsUnread captures.old.ports.items }
    requires new_underlay { IsUnread captures.old.underlay }
    ensures opened { OpensInTurn captures.old.ports.items captures.old.underlay captures.new.ports.items captures.new.underlay result }
    ensures many { length captures.new.ports.items ≡ length captures.old.ports.items }
    ensures reads { ReadsWith captures.old.ports.items captures.old.underlay captures.new.ports.items captures.new.underlay result }
    ensures may_wait { captures.new.may_wait ≡ captures.old.may_wait }
{
    for index in 1..captures.ports.len() + 2 {
        if let Err(fault) = open_at(captures, index) {
            return Err(fault);
        }
    }
    Ok(())
}
