//! Two captures that are open, compared and told.
ghost use Rattle.std.specs.Prelude.{◌≡◌, ◌≤◌, ◌<◌, ◌^◌, if◌then◌else◌, Err, Ok};
ghost use Rattle.pcap.specs.Source.{New, most_left};
ghost use Rattle.program_files.specs.declared.faults.failure.Failure.TheVariants as failures;
ghost use Rattle.capture_compare.specs.Counts.{is_same};
ghost use Rattle.compare_on_files.specs.Asking.{IsFailure, IsUnread, told_at};

use crate::standard_output::StandardOutput;
use capture_compare::carried::Manner;
use capture_compare::lines::Counts;
use capture_compare::{CompareFault, Side};
use compare_reports::{Asked, Report, Segments, Unfinished, compare_open};
use program_files::{Failure, SeenCapture};
use std::io::Read;
use timeline::Tap;

/// What two captures are called where one can't be read.
#[derive(Clone, Copy)]
pub(crate) struct Names<'a> {
    pub(crate) sent: &'a str,
    pub(crate) received: &'a str,
}

/// Compares two captures of which nothing was read, and tells them. It lends them: whoever opened them has one way out. It answers
/// their counts, and gives back where they are told and what was counted by segments.
pub(crate) fn compare_lent<'r, 'a, R, G, F, I>(
    asked: Asked,
    manner: &Manner,
    names: Names<'a>,
    sent: &mut SeenCapture<'a, F, I>,
    received: &mut SeenCapture<'a, F, I>,
    told_to: (StandardOutput<'r, 'a, R, G>, Segments),
) -> Result<(StandardOutput<'r, 'a, R, G>, Segments, Counts), Failure<'a>>
where
    R: AllocGlobal + Print,
    G: Read + Drop,
    F: Read + Drop,
    I: Read + Drop,
    requires new_sent { sent.old.standing ≡ New }
    requires new_received { received.old.standing ≡ New }
    requires most_sent { most_left sent.old < 2 ^ 64 }
    requires most_received { most_left received.old < 2 ^ 64 }
    requires sent_delay { asked.clock.sent_delay ≤ 2000000000000000000 }
    requires received_delay { asked.clock.received_delay ≤ 2000000000000000000 }
{
    let (output, segments) = told_to;
    let mut report = Report::open(asked, manner, output, segments)?;
    match compare_open(manner, sent, received, &mut report) {
        Ok(counts) => {
            let (output, segments) = report.close();
            Ok((output, segments, counts))
        }
        Err(Unfinished::Captures(fault)) => {
            Err(failure_of(asked.at, names, fault, sent, received))
        }
        Err(Unfinished::Told(failure)) => Err(failure),
    }
}

/// Why two captures weren't compared to their ends.
fn failure_of<'a, F: Read + Drop, I: Read + Drop>(
    at: Option<Tap>,
    names: Names<'a>,
    fault: CompareFault,
    sent: &SeenCapture<'_, F, I>,
    received: &SeenCapture<'_, F, I>,
) -> Failure<'a>
    ensures { IsFailure at names.entry fault result }
{
    match fault {
        CompareFault::Read(Side::Sent) => unread(at, Side::Sent, names.sent, sent),
        CompareFault::Read(Side::Received) => unread(at, Side::Received, names.received, received),
        CompareFault::Header(_, _) => told_at(at, fault),
        CompareFault::Record(_, _, _) => told_at(at, fault),
        CompareFault::Full(_) => told_at(at, fault),
    }
}

/// A fault of two captures, with their place.
fn told_at<'a>(at: Option<Tap>, fault: CompareFault) -> Failure<'a>
    ensures { result ≡ told_at at fault }
{
    match at {
        Some(tap) => Failure::ComparedAt(tap, fault),
        None => Failure::Compared(fault),
    }
}

/// Why a capture couldn't be read.
fn unread<'a, F: Read + Drop, I: Read + Drop>(
    at: Option<Tap>,
    side: Side,
    name: &'a str,
    capture: &SeenCapture<'_, F, I>,
) -> Failure<'a>
    ensures { IsUnread at side name.entry.now result }
{
    match (capture.input().fault(), at) {
        (Some(fault), Some(tap)) => Failure::ComparedPcapngAt(tap, side, fault),
        (Some(fault), None) => Failure::ComparedPcapng(side, fault),
        (None, _) => Failure::Read(name),
    }
}

/// That each record that was sent was received, and no other.
pub(crate) fn unless_same(counts: Counts) -> Result<(), Failure<'static>>
    ensures { result ≡ (if is_same counts then Ok tt else Err failures.Differs) }
{
    if counts.is_same() {
        Ok(())
    } else {
        Err(Failure::Differs)
    }
}
