//! Digests of captures: taken, printed, and lent to the parts of a run.
ghost use Rattle.std.specs.Prelude.{IfOk};
ghost use Rattle.runs_on_files.specs.Digests.{AreDigestsOf, IsDigestOf};

use arrayvec::ArrayVec;
use capture_run::RunFault;
use part_record::{
    CaptureDigest, CaptureDigests, DigestInput, DigestsFault, LentFault, MOST_PORTS, digests_of,
    digests_text,
};
use program_files::{CAPTURE_READS, DigestsFailure, Failure, open_named, print_text, read_file};
use std::io::Input;
use std::rt::Files;
use text_calls::tap_of;
use timeline::Tap;

/// Prints the digests of captures.
#[inline(never)]
pub fn print_digests<'a, R: Files + Input + AllocGlobal + Print>(
    rt: &R,
    underlay: &'a str,
    ports: &[&'a str],
) -> Result<(), Failure<'a>> {
    let digests = match take_digests(rt, underlay, ports) {
        Ok(digests) => digests,
        Err(failure) => return Err(failure),
    };
    let text = digests_text(rt.alloc(), &digests)?;
    print_text(rt, text.as_slice())
}

/// Reads captures for their digests, ports rising and then the underlay.
pub fn take_digests<'a, R: Files + Input + AllocGlobal>(
    rt: &R,
    underlay: &'a str,
    ports: &[&'a str],
) -> Result<CaptureDigests, Failure<'a>>
    ensures ports { IfOk result (λ digests. AreDigestsOf R.File.remaining R.Reader.remaining ports.now digests.ports.items) }
    ensures underlay { IfOk result (λ digests. IsDigestOf R.File.remaining R.Reader.remaining underlay.now digests.underlay) }
{
    let mut digests = ArrayVec::<CaptureDigest, MOST_PORTS>::new();
    if ports.len() > MOST_PORTS {
        return Err(Failure::Run(RunFault::PortCount));
    }
    for name in ports {
        let digest = match take_digest(rt, tap_of(digests.len()), *name) {
            Ok(digest) => digest,
            Err(failure) => return Err(failure),
        };
        // There is room for as many as there are ports.
        let _ = digests.try_push(digest);
    }
    match take_digest(rt, Tap::Underlay, underlay) {
        Ok(underlay) => Ok(CaptureDigests {
            ports: digests,
            underlay,
        }),
        Err(failure) => Err(failure),
    }
}

/// Reads a capture for the digest of what it tells as classic pcap.
fn take_digest<'a, R: Files + Input + AllocGlobal>(
    rt: &R,
    tap: Tap,
    name: &'a str,
) -> Result<CaptureDigest, Failure<'a>>
    ensures { IfOk result (λ digest. IsDigestOf R.File.remaining R.Reader.remaining name.now digest) }
{
    let input = match open_named(rt, name) {
        Ok(input) => input,
        Err(failure) => return Err(failure),
    };
    let mut digested = DigestInput::new(input, true);
    if digested.finish(CAPTURE_READS).is_err() {
        return match digested.input().fault() {
            Some(fault) => Err(Failure::Pcapng(tap, fault)),
            None => Err(Failure::Read(name)),
        };
    }
    match digested.digest() {
        Some(digest) => Ok(digest),
        None => unreachable!(),
    }
}

/// The digests that the file of this name lends to a part of a run of so many ports.
pub fn lent_digests<'a, R: Files + AllocGlobal>(
    rt: &R,
    name: &'a str,
    ports: usize,
) -> Result<CaptureDigests, Failure<'a>> {
    let text = read_file(rt, name)?;
    match read_digests(text.as_slice()) {
        Ok(digests) if digests.ports.len() == ports => Ok(digests),
        Ok(_) => Err(Failure::Digests(name, DigestsFailure::Other(LentFault::Ports))),
        Err(fault) => Err(Failure::Digests(name, DigestsFailure::Text(fault))),
    }
}

/// The digests of a text.
fn read_digests(text: &[u8]) -> Result<CaptureDigests, DigestsFault> {
    match str::from_utf8(text) {
        Ok(text) => digests_of(text),
        Err(_) => Err(DigestsFault::Head),
    }
}
