//! The captures of a run: opened, and then read.
ghost use Rattle.std.specs.Prelude.{◌≡◌, ◌≤◌, ◌++◌, length, slice_get, Some, None, [], IfOk, IfErr, OnOk, OnErr};
ghost use Rattle.std.specs.List.{AllByRecursion};
ghost use Rattle.pcap.specs.Calls.{ends_cut, is_cut};
ghost use Rattle.pcap.specs.Capture.{opened};
ghost use Rattle.timeline.specs.Events.{events_of, record_events};
ghost use Rattle.timeline.specs.Faults.{IsFault, ended_by, opening_faults, record_fault, refused_by};
ghost use Rattle.timeline.specs.Inputs.{HasBoundedRecords, inputs, opened_by, opened_captures};
ghost use Rattle.timeline.specs.Timeline.{cut_of};

use crate::event::{Captured, Event, Happening};
use crate::fault::TimelineFault;
use crate::source::Tap;
use crate::timeline::Cut;
use pcap::text::Capture;
use std::alloc::Global;

/// A capture that was opened.
#[derive(Drop)]
pub struct Opened<'a> {
    pub tap: Tap,
    pub capture: Capture<'a>,
}

/// Opens a capture.
fn open<'a>(tap: Tap, octets: &'a [u8]) -> Result<Opened<'a>, TimelineFault>
    ensures ok { IfOk result (λ c. opened_by tap (opened octets.now) ≡ Some c) }
    ensures no_fault { OnOk result (refused_by tap (opened octets.now) ≡ None) }
    ensures fault { IfErr result (λ f. refused_by tap (opened octets.now) ≡ Some f) }
    ensures none { OnErr result (opened_by tap (opened octets.now) ≡ None) }
    ensures records { IfOk result HasBoundedRecords }
{
    match Capture::open(octets) {
        Ok(capture) => Ok(Opened { tap, capture }),
        Err(fault) => Err(TimelineFault::Capture(tap, fault)),
    }
}

/// Opens the captures of the ports, rising, and then that of the underlay.
pub fn open_all<'a>(
    alloc: Global,
    ports: &'a [Vec<u8>],
    underlay: &'a [u8],
) -> Result<Vec<Opened<'a>>, TimelineFault>
    requires { length ports.now ≤ 255 }
    ensures captures { IfOk result (λ captures. captures.items ≡ opened_captures (inputs ports.now underlay.now)) }
    ensures no_fault { OnOk result (opening_faults (inputs ports.now underlay.now) ≡ []) }
    ensures fault { IfErr result (λ f. IsFault f (slice_get (opening_faults (inputs ports.now underlay.now)) 0)) }
    ensures records { IfOk result (λ captures. AllByRecursion HasBoundedRecords captures.items) }
{
    let mut captures = Vec::new(alloc);
    let mut port = 0;
    for octets in ports {
        port += 1;
        captures.push(open(Tap::Port(port), octets.as_slice())?)?;
    }
    captures.push(open(Tap::Underlay, underlay)?)?;
    Ok(captures)
}

/// Adds what is left of a capture as events, each at the greatest moment so far, and answers how many they are.
fn read_records<'a>(
    events: &mut Vec<Event<'a>>,
    tap: Tap,
    capture: &mut Capture<'a>,
) -> Result<u64, TimelineFault>
    requires { HasBoundedRecords (record { tap = tap; capture = capture.old }) }
    ensures events { OnOk result (events.new.items ≡ events.old.items ++ record_events tap 0 0 capture.old.records) }
    ensures count { IfOk result (λ count. count ≡ length capture.old.records) }
    ensures left { OnOk result (is_cut capture.new ≡ ends_cut capture.old.end) }
    ensures no_fault { OnOk result (ended_by tap (length capture.old.records) capture.old.end ≡ None) }
    ensures fault { IfErr result (λ f. IsFault f (ended_by tap (length capture.old.records) capture.old.end)) }
{
    let mut latest = 0;
    let mut count = 0;
    'records: loop {
        match capture.next() {
            None => return Ok(count),
            Some(Err(fault)) => return Err(TimelineFault::Record(tap, count + 1, fault)),
            Some(Ok(record)) => {
                latest = record.moment.max(latest);
                count += 1;
                let captured = Captured {
                    original: record.original,
                    octets: record.octets,
                };
                events.push(Event {
                    moment: latest,
                    number: count,
                    happening: Happening::Record(tap, captured),
                })?;
            }
        }
    }
}

/// Adds the records of a capture as events, and answers the cut rest behind them, if there is one.
pub fn read_capture<'a>(
    events: &mut Vec<Event<'a>>,
    opened: Opened<'a>,
) -> Result<Option<Cut>, TimelineFault>
    requires { HasBoundedRecords opened }
    ensures events { OnOk result (events.new.items ≡ events.old.items ++ events_of opened.entry) }
    ensures cut { IfOk result (λ cut. cut ≡ cut_of opened.entry) }
    ensures no_fault { OnOk result (record_fault opened.entry ≡ None) }
    ensures fault { IfErr result (λ f. IsFault f (record_fault opened.entry)) }
{
    let Opened { tap, mut capture } = opened;
    match read_records(events, tap, &mut capture) {
        Ok(whole) if capture.is_cut() => Ok(Some(Cut { tap, whole })),
        Ok(_) => Ok(None),
        Err(fault) => Err(fault),
    }
}
