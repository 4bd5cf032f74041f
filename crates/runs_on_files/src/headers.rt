//! A look at how captures begin, before an output is emptied.
use capture_run::RunFault;
use pcap::stream::{Source, SourceFault};
use pcap::text::CaptureFault;
use program_files::{ClassicInput, Failure, Names, is_read_once, open_front};
use std::io::{Input, Read};
use std::rt::Files;
use text_calls::tap_of;
use timeline::Tap;

/// How many reads are made of what a capture tells, at most.
const READS: u64 = 1_024;

/// How far a capture is read.
#[derive(Clone, Copy, PartialEq, Eq)]
enum Depth {
    /// Its global header, as classic pcap.
    Header,
    /// Its first record, or the first blocks of pcapng.
    FirstRecord,
}

/// What is seen of how a capture begins.
#[derive(Drop)]
enum Seen<'a> {
    /// Nothing that a run would stop at, as far as it was read.
    Well,
    /// What a run will tell, which isn't told here.
    Unsure,
    /// What a run would stop at.
    Refused(Failure<'a>),
}

/// Refuses captures that are regular files and begin as none does, with the fault that a run would tell: of headers, ports rising
/// and then the underlay, and then of the first blocks of pcapng. What can be read only once isn't looked at.
pub fn see_headers<'a, R: Files + Input + AllocGlobal>(
    rt: &R,
    names: Names<'_, 'a>,
) -> Result<(), Failure<'a>> {
    match see_all(rt, names, Depth::Header) {
        Seen::Well => {}
        Seen::Unsure => return Ok(()),
        Seen::Refused(failure) => return Err(failure),
    }
    match see_all(rt, names, Depth::FirstRecord) {
        Seen::Refused(failure) => Err(failure),
        _ => Ok(()),
    }
}

/// Looks at the captures in turn, up to the first that isn't well.
fn see_all<'a, R: Files + Input + AllocGlobal>(
    rt: &R,
    names: Names<'_, 'a>,
    depth: Depth,
) -> Seen<'a> {
    for (index, name) in names.ports.iter().enumerate() {
        match see(rt, tap_of(index), *name, depth) {
            Seen::Well => {}
            seen => return seen,
        }
    }
    see(rt, Tap::Underlay, names.underlay, depth)
}

/// Looks at a capture, where that takes nothing from the run.
fn see<'a, R: Files + Input + AllocGlobal>(
    rt: &R,
    tap: Tap,
    name: &'a str,
    depth: Depth,
) -> Seen<'a> {
    if is_read_once(rt, name) {
        return Seen::Well;
    }
    let front = match open_front(rt, name) {
        Ok(front) => front,
        Err(failure) => return Seen::Refused(failure),
    };
    let mut source = match Source::new(rt.alloc(), front, READS) {
        Ok(source) => source,
        Err(error) => return Seen::Refused(Failure::from(error)),
    };
    let mut read = source.open();
    if depth == Depth::FirstRecord && read.is_ok() {
        read = source.fill();
    }
    match read {
        Ok(()) => Seen::Well,
        Err(fault) => seen_of(tap, fault, source.input()),
    }
}

/// What a fault of a capture's front tells.
fn seen_of<'a, F: Read + Drop, I: Read + Drop>(
    tap: Tap,
    fault: SourceFault,
    front: &ClassicInput<'_, F, I>,
) -> Seen<'a> {
    match fault {
        SourceFault::NotPcap => refused(tap, CaptureFault::NotPcap),
        SourceFault::BadLink => refused(tap, CaptureFault::BadLink),
        SourceFault::Read => match front.fault() {
            Some(fault) => Seen::Refused(Failure::Pcapng(tap, fault)),
            None => Seen::Unsure,
        },
        SourceFault::TooLarge | SourceFault::BadFraction => Seen::Unsure,
    }
}

/// That a capture's header is refused.
fn refused<'a>(tap: Tap, fault: CaptureFault) -> Seen<'a> {
    Seen::Refused(Failure::Run(RunFault::Capture(tap, fault)))
}
