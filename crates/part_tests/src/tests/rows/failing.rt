//! Runs over devices that fail: what they have written by then.
use crate::tests::rows::rows::{AGEING, Row};
use crate::tests::rows::run::{Manner, WHOLE};
use capture_run::Outputs;
use std::alloc::Global;
use std::process::Abort;
use std::test::Fail;
use stream_run::{StreamFault, Target};
use timeline::Tap;

/// The decision lines of the row, which say what leaves where.
const LINES: [&str; 3] = [
    "1 0 p2 1 10 p1=60 p3=64 192.0.2.2=110\n",
    "2 9999999999 p1 1 10 p2=60\n",
    "3 10000000000 p1 2 10 p2=60 p3=64 192.0.2.2=110\n",
];

/// How many octets the ports, the underlay and the decision lines hold with nothing, with the headers, and with the
/// events in turn: a record has 16 octets before its own.
const STAGES: [[usize; 5]; 5] = [
    [0, 0, 0, 0, 0],
    [24, 24, 24, 24, 0],
    [100, 24, 104, 150, 38],
    [100, 100, 104, 150, 65],
    [100, 176, 184, 276, 113],
];

/// Whether some text is the front of another.
fn is_front(text: &[u8], whole: &[u8]) -> bool {
    whole.get(..text.len()) == Some(text)
}

/// How many octets were written, where that is the front of what belongs there.
fn sizes(written: &Outputs, whole: &Outputs) -> Option<[usize; 5]> {
    let mut sizes = [0; 5];
    for (index, (port, expected)) in written.ports.iter().zip(whole.ports.iter()).enumerate() {
        if index >= 3 || !is_front(port.as_slice(), expected.as_slice()) {
            return None;
        }
        sizes[index] = port.len();
    }
    let is_sound = is_front(written.underlay.as_slice(), whole.underlay.as_slice())
        && is_front(written.decisions.as_slice(), whole.decisions.as_slice());
    sizes[3] = written.underlay.len();
    sizes[4] = written.decisions.len();
    if is_sound { Some(sizes) } else { None }
}

/// Whether all outputs stand between one stage and the next.
fn is_between(sizes: &[usize; 5], least: &[usize; 5], most: &[usize; 5]) -> bool {
    sizes
        .iter()
        .zip(least.iter().zip(most.iter()))
        .all(|(size, (least, most))| *least <= *size && *size <= *most)
}

/// The stages between which all outputs stand: the first of them.
fn stage_of(written: &Outputs, whole: &Outputs) -> Option<usize> {
    let sizes = sizes(written, whole)?;
    STAGES
        .iter()
        .zip(STAGES.iter().skip(1))
        .position(|(least, most)| is_between(&sizes, least, most))
}

/// The row, and what it writes over whole devices.
fn row_and_whole(alloc: Global) -> Result<(Row, Outputs), Fail> {
    let row = Row::ageing(alloc, &AGEING)?;
    let (whole, end) = WHOLE.run(alloc, &row)?;
    if end.is_err() || whole.decisions.as_slice() != LINES.concat(alloc)?.as_bytes() {
        return Err(Fail::new("a run over whole devices"));
    }
    Ok((row, whole))
}

/// The side of a fault, the ports first, then the underlay and the decision lines.
fn side_of(fault: &StreamFault) -> Option<(Side, usize)> {
    match fault {
        StreamFault::Run(_) => None,
        StreamFault::Read(Tap::Port(port)) => Some((Side::Read, usize::from(*port))),
        StreamFault::Read(Tap::Underlay) => Some((Side::Read, 4)),
        StreamFault::Write(Target::Port(port)) => Some((Side::Write, usize::from(*port))),
        StreamFault::Write(Target::Underlay) => Some((Side::Write, 4)),
        StreamFault::Write(Target::Decisions) => Some((Side::Write, 5)),
    }
}

/// What fails.
#[derive(Clone, Copy, Debug, PartialEq, Eq)]
enum Side {
    Read,
    Write,
}

/// Devices of seven octets a call. The call of this number to the device of this index fails, or takes none.
fn failing(side: Side, index: usize, number: u64, fails: bool) -> Manner {
    let manner = Manner {
        at_a_read: 7,
        at_a_write: 7,
        fails,
        ..WHOLE
    };
    match side {
        Side::Read => Manner {
            failing_read: (index, number),
            ..manner
        },
        Side::Write => Manner {
            failing_write: (index, number),
            ..manner
        },
    }
}

/// How many calls of a device failed in turn, until a run met no fault. Each run blames that device, and leaves whole
/// events and a part of one.
fn failed_in_turn(
    rt: &impl Abort,
    alloc: Global,
    side: Side,
    index: usize,
    fails: bool,
) -> Result<u64, Fail> {
    let (row, whole) = row_and_whole(alloc)?;
    for number in 1..1000 {
        let (written, end) = failing(side, index, number, fails).run(alloc, &row)?;
        let Err(fault) = end else {
            return Ok(number - 1);
        };
        assert!(rt;
            side_of(&fault) == Some((side, index.saturating_add(1))),
            "{side:?} {number} of {index}: {fault}"
        );
        assert!(rt;
            stage_of(&written, &whole).is_some(),
            "{side:?} {number} of {index}: what stands"
        );
    }
    Err(Fail::new("a run that always fails"))
}

/// How many reads of seven octets each capture takes: its header has 24 octets and each record 76, which are read one
/// behind the other, and one read finds the end. The first has two records and the second one.
const READS: [u64; 4] = [27, 16, 5, 5];

#[test]
fn each_read_fails_in_turn(rt: HostRuntime) -> Result<(), Fail> {
    for (index, reads) in READS.iter().enumerate() {
        let failed = failed_in_turn(&rt, rt.alloc(), Side::Read, index, true)?;
        assert_eq!(rt; failed, *reads, "capture {index}");
    }
    Ok(())
}

/// How many writes of seven octets each output takes: four for a header, and for each record those for what stands before
/// its body, of 48 octets, and seven for that; a decision line is written alone.
const WRITES: [u64; 5] = [15, 26, 28, 42, 17];

/// Each write of an output in turn fails, and then takes none.
fn check_writes(rt: &impl Abort, alloc: Global, index: usize) -> Result<(), Fail> {
    for fails in [true, false] {
        let failed = failed_in_turn(rt, alloc, Side::Write, index, fails)?;
        assert_eq!(rt; Some(&failed), WRITES.get(index), "output {index}");
    }
    Ok(())
}

#[test]
fn each_write_of_a_port_fails_in_turn(rt: HostRuntime) -> Result<(), Fail> {
    check_writes(&rt, rt.alloc(), 0)?;
    check_writes(&rt, rt.alloc(), 1)
}

#[test]
fn each_write_of_the_last_port_fails_in_turn(rt: HostRuntime) -> Result<(), Fail> {
    check_writes(&rt, rt.alloc(), 2)
}

#[test]
fn each_write_of_the_underlay_fails_in_turn(rt: HostRuntime) -> Result<(), Fail> {
    check_writes(&rt, rt.alloc(), 3)
}

#[test]
fn each_write_of_the_decisions_fails_in_turn(rt: HostRuntime) -> Result<(), Fail> {
    check_writes(&rt, rt.alloc(), 4)
}

/// A header and 61 records of no octets are 1,000 reads of one octet; the next record would need another.
#[test]
fn an_endless_capture_ends_at_its_bound(rt: HostRuntime) -> Result<(), Fail> {
    let manner = Manner {
        at_a_read: 1,
        reads: 1000,
        is_endless: true,
        ..WHOLE
    };
    let row = Row::bridge(rt.alloc(), &[])?;
    let (written, end) = manner.run(rt.alloc(), &row)?;
    assert!(rt; matches!(end, Err(StreamFault::Read(Tap::Port(1)))));
    let decisions = String::from_utf8(written.decisions)?;
    assert_eq!(rt; decisions.lines().count(), 61);
    assert_eq!(rt; decisions.lines().last(), Some("61 0 p1 61 - drop 3 Runt"));
    Ok(())
}
