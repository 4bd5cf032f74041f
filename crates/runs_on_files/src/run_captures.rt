//! The captures of a run.
use part_record::DigestInput;
use pcapng_input::PcapngFault;
use program_files::{Capture, ClassicInput, Failure, Names};
use std::alloc::{AllocError, Global};
use std::io::Read;
use stream_run::{Captures, StreamFault};
use text_calls::{failure_of_run, tap_of};
use timeline::Tap;

/// The captures of a run on files, whose octets are counted, and whose digests may be taken.
pub type RunCaptures<'a, F, I> = Captures<DigestInput<ClassicInput<'a, F, I>>>;

/// Why a run on these captures stopped.
pub(crate) fn failure_of<'a, F: Read + Drop, I: Read + Drop>(
    names: Names<'_, 'a>,
    fault: StreamFault,
    captures: &RunCaptures<'_, F, I>,
) -> Failure<'a> {
    match fault {
        StreamFault::Read(tap) => match fault_of(tap, captures) {
            Some(fault) => Failure::Pcapng(tap, fault),
            None => Failure::Read(names.capture(tap)),
        },
        fault => failure_of_run(names.underlay, fault),
    }
}

/// The taps of the captures that are cut.
pub(crate) fn cut_taps<F: Read + Drop, I: Read + Drop>(
    alloc: Global,
    captures: &RunCaptures<'_, F, I>,
) -> Result<Vec<Tap>, AllocError> {
    let mut cut = Vec::new(alloc);
    for index in 0..captures.ports.len() {
        if captures.ports[index].is_cut() {
            cut.push(tap_of(index))?;
        }
    }
    if captures.underlay.is_cut() {
        cut.push(Tap::Underlay)?;
    }
    Ok(cut)
}

/// How many octets were read of each capture.
pub(crate) fn octets_read<F: Read + Drop, I: Read + Drop>(
    alloc: Global,
    captures: &[Capture<'_, F, I>],
) -> Result<Vec<u64>, AllocError> {
    let mut counts = Vec::new(alloc);
    for capture in captures {
        counts.push(capture.input().octets())?;
    }
    Ok(counts)
}

/// The fault of the pcapng capture at a tap, where it has met one.
fn fault_of<F: Read + Drop, I: Read + Drop>(
    tap: Tap,
    captures: &RunCaptures<'_, F, I>,
) -> Option<PcapngFault> {
    match tap {
        Tap::Underlay => captures.underlay.input().input().fault(),
        Tap::Port(number) => {
            let index = usize::from(number).checked_sub(1)?;
            captures.ports.get(index)?.input().input().fault()
        }
    }
}
