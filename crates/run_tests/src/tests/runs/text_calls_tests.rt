//! Texts in, texts out; and texts from inputs that give a few octets at a time, or fail.
use capture_run::RunFault;
use explanation::sample::sample;
use pcap::text::{CaptureFault, RecordFault};
use program_files::{TextFault, exit_code, read_text};
use std::alloc::Global;
use std::test::Fail;
use stream_run::{StreamFault, Target};
use test_inputs::in_pieces;
use test_inputs::settings::ENDPOINT;
use text_calls::{check_text, stream_code};
use timeline::Tap;

/// Four frames among three ports.
fn four_lines<'a>() -> &'a str {
    "1 1000000000 p1 1 10 p2=60 p3=60\n2 2000000000 p2 1 10 p1=60\n3 3000000000 p1 2 10 p2=60\n4 4000000000 p2 2 10 drop 35 SamePlace\n"
}

#[test]
fn the_sample_has_four_lines(rt: HostRuntime) -> Result<(), Fail> {
    let lines = sample(rt.alloc())?;
    assert!(rt; lines.as_slice() == four_lines().as_bytes());
    Ok(())
}

/// What a look at these texts tells: the line, or the fault's and its exit status.
fn told(alloc: Global, settings: &str, changes: &str) -> Result<String, Fail> {
    match check_text(alloc, settings.as_bytes(), changes.as_bytes()) {
        Ok(line) => Ok(String::from_utf8(line)?),
        Err(fault) => Ok(format!(in alloc; "{fault}, {}", exit_code(&fault))?),
    }
}

/// Whether a look at these texts tells that.
fn is_told(alloc: Global, settings: &str, changes: &str, expected: &str) -> Result<bool, Fail> {
    Ok(told(alloc, settings, changes)?.as_str() == expected)
}

/// The same of the endpoint's settings, one text in them in place of another.
fn is_told_of(
    alloc: Global,
    (old, new): (&str, &str),
    changes: &str,
    expected: &str,
) -> Result<bool, Fail> {
    let settings = ENDPOINT.replacen(alloc, old, new, 1)?;
    is_told(alloc, &settings, changes, expected)
}

/// A text that is put for another in the settings, changes, and what a look at both tells.
const LOOKS: [((&str, &str), &str, &str); 5] = [
    (("", ""), "", "ok: 3 ports, 2 segments, 0 changes\n"),
    (
        ("", ""),
        "[[change]]\nkind = \"port_up\"\nat = 0\nport = 1\n",
        "ok: 3 ports, 2 segments, 1 changes\n",
    ),
    (
        ("vni = 5000\n", ""),
        "x = 1",
        "settings: Missing segment.1.vni, 1",
    ),
    (
        ("vid = 20", "vid = 10"),
        "",
        "settings: TwoSegments segment.2, 1",
    ),
    (("", ""), "x = 1", "changes: BadValue *, 1"),
];

#[test]
fn a_look_tells_the_numbers_or_the_first_fault(rt: HostRuntime) -> Result<(), Fail> {
    for (edit, changes, expected) in &LOOKS {
        let is_told = is_told_of(rt.alloc(), *edit, changes, expected)?;
        assert!(rt; is_told, "a look that gives {expected}");
    }
    Ok(())
}

/// Whether faults of runs have these statuses.
fn runs_end_so() -> bool {
    exit_code(&RunFault::PortCount) == 1
        && exit_code(&RunFault::Capture(Tap::Port(2), CaptureFault::BadLink)) == 1
        && exit_code(&RunFault::Record(Tap::Underlay, 3, RecordFault::TooLarge)) == 1
        && exit_code(&RunFault::OutOfMemory) == 3
}

/// Whether faults of streams have these.
fn streams_end_so() -> bool {
    stream_code(&StreamFault::Run(RunFault::PortCount)) == 1
        && stream_code(&StreamFault::Run(RunFault::OutOfMemory)) == 3
        && stream_code(&StreamFault::Read(Tap::Port(1))) == 3
        && stream_code(&StreamFault::Write(Target::Decisions)) == 3
}

#[test]
fn each_fault_has_its_exit_status(rt: HostRuntime) {
    assert!(rt; runs_end_so());
    assert!(rt; streams_end_so());
}

/// At most so many octets a read, and the reads that the 365 octets of the settings take: those that bring them, and the
/// one that finds the end.
const CASES: [(usize, u64); 3] = [(1, 366), (7, 54), (4096, 2)];

/// Whether the settings are read whole, in so many reads.
fn is_read(alloc: Global, most: usize, reads: u64) -> Result<bool, TextFault> {
    let mut input = in_pieces(ENDPOINT.as_bytes(), most, 0);
    let text = read_text(alloc, &mut input, reads)?;
    Ok(text.as_slice() == ENDPOINT.as_bytes() && input.calls == reads)
}

/// Whether they aren't in so many reads, of which one fails, or none where its number is 0.
fn is_refused(alloc: Global, most: usize, reads: u64, fails_at: u64) -> bool {
    let mut input = in_pieces(ENDPOINT.as_bytes(), most, fails_at);
    matches!(read_text(alloc, &mut input, reads), Err(TextFault::Read))
}

/// The first read that isn't told where it fails.
fn untold_read(alloc: Global, most: usize, reads: u64) -> Option<u64> {
    for n in 1..=reads {
        if !is_refused(alloc, most, reads, n) {
            return Some(n);
        }
    }
    None
}

#[test]
fn reads_a_text_in_any_pieces(rt: HostRuntime) -> Result<(), Fail> {
    for (most, reads) in CASES {
        assert!(rt; is_read(rt.alloc(), most, reads)?, "by {most}");
        let one_less = reads.saturating_sub(1);
        let is_refused = is_refused(rt.alloc(), most, one_less, 0);
        assert!(rt; is_refused, "by {most} with a read too few");
        assert_eq!(rt; untold_read(rt.alloc(), most, reads), None);
    }
    Ok(())
}
