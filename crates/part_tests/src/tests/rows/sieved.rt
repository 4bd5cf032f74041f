//! Runs whose sieve leaves out what comes in at port 2.
ghost use Rattle.std.specs.Prelude.{◌≡◌, ⊤, All, length};
ghost use Rattle.pcap.specs.Source.{New, Stream};
ghost use Rattle.part_tests.specs.Left.{elsewhere, elsewhere_none, is_elsewhere as is_from_elsewhere};

use crate::tests::rows::rows::Row;
use crate::tests::rows::run::WHOLE;
use crate::tests::rows::same::words_of;
use endpoint_core::{Endpoint, Forwarding};
use pcap::stream::{Input, Output};
use segment_set::SegmentSet;
use std::alloc::Global;
use std::test::Fail;
use stream_run::{
    Captures, Job, ReadTexts, RunOutputs, Sieve, StreamFault, Unwatched, read_texts, run,
};
use timeline::{Event, Source, Tap};

/// Whether this source isn't port 2.
fn is_elsewhere(source: Source) -> bool
    ensures { result ≡ is_from_elsewhere source }
{
    match source {
        Source::Tap(Tap::Port(port)) => port != 2,
        Source::Tap(Tap::Underlay) => true,
        Source::Changes => true,
    }
}

/// Leaves out what comes in at port 2.
#[derive(Clone, Copy)]
pub(crate) struct Elsewhere;

impl Sieve for Elsewhere {
    ghost taken = { λ s S changes es. elsewhere es };

    ghost none = { λ s S changes. elsewhere_none };

    ghost goes = { λ old S changes e new. ⊤ };

    fn takes(&mut self, _endpoint: &Endpoint, event: &Event, _came: &Forwarding) -> bool {
        is_elsewhere(event.source())
    }
}

/// Runs what a sieve takes in of a row.
pub(crate) fn run_row<R: Input, W: Output, S: Sieve>(
    alloc: Global,
    row: &Row,
    captures: &mut Captures<R>,
    written: &mut RunOutputs<W>,
    sieve: &mut S,
) -> Result<(), StreamFault>
    requires sinks { length written.old.ports ≡ length captures.old.ports.items }
    requires new_ports { All (λ (source : Stream). source.standing ≡ New) captures.old.ports.items }
    requires new_underlay { captures.old.underlay.standing ≡ New }
{
    let settings_text = row.settings.as_bytes();
    let changes_text = row.changes.as_bytes();
    let ReadTexts { settings, changes } = match read_texts(alloc, settings_text, changes_text) {
        Ok(read) => read,
        Err(fault) => return Err(StreamFault::Run(fault)),
    };
    let all = SegmentSet::all();
    let job = Job {
        settings_text,
        changes_text,
        settings,
        changes: changes.as_slice(),
        segments: &all,
    };
    run(alloc, job, captures, written, sieve, &mut Unwatched)
}

/// Frames at three ports, those at port 2 between the others.
const ALL: [&str; 5] = [
    "1s p1 60 ALL M1 0806",
    "2s p2 60 M1 M2 0800",
    "3s p1 60 M2 M1 0800",
    "4s p2 60 M2 M2 0800",
    "5s p3 60 M2 M3 0800",
];

/// Those of the other ports.
const OTHERS: [&str; 3] = [
    "1s p1 60 ALL M1 0806",
    "3s p1 60 M2 M1 0800",
    "5s p3 60 M2 M3 0800",
];

#[test]
fn what_is_left_out_leaves_nothing(rt: HostRuntime) -> Result<(), Fail> {
    let mut row = Row::bridge(rt.alloc(), &ALL)?;
    row.is_sieved = true;
    let (written, end) = WHOLE.run(rt.alloc(), &row)?;
    let ended = words_of(rt.alloc(), end)?;
    assert_eq!(&rt; ended.as_str(), "done");
    let Ok(expected) = Row::bridge(rt.alloc(), &OTHERS)?.answered(rt.alloc()) else {
        return Err(Fail::new("the run in memory"));
    };
    let same = written.ports == expected.ports
        && written.underlay == expected.underlay
        && written.decisions == expected.decisions;
    assert!(&rt; same, "the texts");
    Ok(())
}

#[test]
fn a_fault_of_what_is_left_out_is_told(rt: HostRuntime) -> Result<(), Fail> {
    let lines = [
        "1s p1 60 ALL M1 0806",
        "= p2 PCAP 01000000 00000000 01000400 01000400",
    ];
    let mut row = Row::bridge(rt.alloc(), &lines)?;
    row.is_sieved = true;
    let (_, end) = WHOLE.run(rt.alloc(), &row)?;
    let ended = words_of(rt.alloc(), end)?;
    assert_eq!(&rt; ended.as_str(), "p2: TooLarge 1");
    Ok(())
}
