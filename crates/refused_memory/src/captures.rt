//! Calls that read and write captures.
use crate::answer::Answer;
use pcap::stream::{DeviceFault, Input, Source, StdInput};
use pcap::text::{put_header, put_record};
use pcapng_input::{CaptureInput, PcapngError, Selection, classic_of};
use program_files::{TextFault, read_text};
use std::alloc::Global;
use std::test::Fail;
use test_inputs::memory::request;
use timeline::{Timeline, TimelineFault};

/// Puts a header behind an octet.
pub(crate) fn header(alloc: Global, count: u16, expected: &[u8]) -> Result<Answer, Fail> {
    let mut out = Vec::from_slice(alloc, &[7])?;
    request(alloc, count);
    let added = put_header(&mut out);
    Ok(Answer::grown(added.is_ok(), out.as_slice(), expected))
}

/// Puts a record of these octets behind an octet.
pub(crate) fn record(
    alloc: Global,
    count: u16,
    octets: &[u8],
    expected: &[u8],
) -> Result<Answer, Fail> {
    if octets.len() > 64 {
        return Err(Fail::new("a long record"));
    }
    let mut out = Vec::from_slice(alloc, &[7])?;
    request(alloc, count);
    let added = put_record(&mut out, 1_000_000_000, octets, &[], &[], &[]);
    Ok(Answer::grown(added.is_ok(), out.as_slice(), expected))
}

/// Makes a source over a capture.
pub(crate) fn source(alloc: Global, count: u16, capture: &[u8]) -> Answer {
    request(alloc, count);
    Answer::of(Source::new(alloc, StdInput::new(capture), 9).is_ok(), true)
}

/// Reads the events of a change and of a capture of one record.
pub(crate) fn timeline(alloc: Global, count: u16, capture: &[u8]) -> Answer {
    let no_ports: &[Vec<u8>] = &[];
    request(alloc, count);
    match Timeline::read(alloc, &[7], no_ports, capture) {
        Ok(timeline) => Answer::of(timeline.events().len() == 2, false),
        Err(fault) => Answer::of(false, matches!(fault, TimelineFault::OutOfMemory)),
    }
}

/// Reads the packets of the second interface as a capture.
pub(crate) fn classic(alloc: Global, count: u16, text: &[u8], expected: &[u8]) -> Answer {
    request(alloc, count);
    match classic_of(alloc, Selection::Number(1), text) {
        Ok(capture) => Answer::text(capture.as_slice(), expected),
        Err(error) => Answer::of(false, matches!(error, PcapngError::OutOfMemory)),
    }
}

/// How many octets of a capture that is told are looked at.
const TOLD: usize = 64;

/// Puts the octets that an input tells, and says how many there are once they end. It makes no request itself.
fn tell<R: Input>(input: &mut R, told: &mut [u8; TOLD]) -> Result<usize, DeviceFault> {
    let mut at = 0;
    for _read in 0..TOLD {
        let Some(room) = told.get_mut(at..) else {
            return Ok(at);
        };
        let n = input.read(room)?;
        if n == 0 {
            return Ok(at);
        }
        at = at.saturating_add(n);
    }
    Ok(at)
}

/// Reads the packets of the second interface as a capture, piece by piece.
pub(crate) fn adapted(alloc: Global, count: u16, text: &[u8], expected: &[u8]) -> Answer {
    let mut told = [0; TOLD];
    request(alloc, count);
    let input = StdInput::new(text);
    let Ok(mut input) = CaptureInput::new(alloc, input, Selection::Number(1), 9) else {
        return Answer::Memory;
    };
    match tell(&mut input, &mut told) {
        Ok(n) => Answer::of(told.get(..n) == Some(expected), false),
        Err(DeviceFault) => Answer::of(false, input.fault().is_none()),
    }
}

/// Reads a text.
pub(crate) fn read(alloc: Global, count: u16, text: &[u8]) -> Answer {
    request(alloc, count);
    match read_text(alloc, &mut StdInput::new(text), 9) {
        Ok(read) => Answer::text(read.as_slice(), text),
        Err(fault) => Answer::of(false, matches!(fault, TextFault::OutOfMemory)),
    }
}
