//! Captures that look as if they had both directions, though a run without `--both` takes all that is in them.
ghost use Rattle.std.specs.Prelude.{◌<◌};

use both_ways::{BothWays, Nobody, WITHIN};
use capture_survey::Echoes;
use program_files::{FailedOutputs, Failure, Names, Shown, print_shown};
use runs_on_files::{Job, Scope, Texts, run_on_files};
use std::fmt::Write;
use std::io::Input;
use std::rt::Files;
use text_calls::tap_of;
use timeline::Tap;

/// How many numbers a place could have.
const PLACES: usize = 256;

/// How many records the captures hold.
#[derive(Clone, Copy)]
pub(crate) struct RecordCounts {
    /// By the numbers of the ports; 0 is the underlay's.
    records: [u64; PLACES],
}

impl RecordCounts {
    /// No capture was looked at yet.
    pub(crate) fn new() -> RecordCounts {
        RecordCounts {
            records: [0; PLACES],
        }
    }

    /// The capture of this tap holds so many.
    pub(crate) fn put(&mut self, tap: Tap, records: u64) {
        self.records[place_of(tap)] = records;
    }

    /// How many the capture of this tap holds.
    fn at(&self, tap: Tap) -> u64 {
        self.records[place_of(tap)]
    }
}

/// The number of a place.
fn place_of(tap: Tap) -> usize
    ensures { result < 256 }
{
    match tap {
        Tap::Port(number) => usize::from(number),
        Tap::Underlay => 0,
    }
}

/// Prints of which captures many records are what a run with `--both` leaves out, and below that what such a run forgets for want
/// of room. The captures hold so many records; they are read once more, by a run that writes nothing and that nobody looks on at.
/// What can be read only once isn't looked at, and nothing is told where that run stops at a fault.
pub(crate) fn print_echoes<'j, R: Files + Input + AllocGlobal + Print>(
    rt: &R,
    shown: Shown,
    names: Names<'j, '_>,
    texts: &'j Texts,
    counts: &RecordCounts,
) -> Result<(), Failure<'static>> {
    if names.has_read_once(rt) {
        return Ok(());
    }
    let Some(sieve) = sieve_behind(rt, names, texts) else {
        return Ok(());
    };
    let mut lines = String::new(rt.alloc());
    for index in 0..names.ports.len() {
        let echoes = echoes_at(&sieve, counts, tap_of(index));
        write!(lines, "{echoes}")?;
    }
    let echoes = echoes_at(&sieve, counts, Tap::Underlay);
    write!(lines, "{echoes}")?;
    // What came in alone may be more than fits, and then nothing is amiss.
    if !lines.is_empty() {
        if let Some(line) = sieve.forgotten_line() {
            write!(lines, "{line}\n")?;
        }
    }
    print_shown(rt, shown, lines.as_bytes())
}

/// What a run with `--both` leaves out, behind it.
fn sieve_behind<'j, R: Files + Input + AllocGlobal>(
    rt: &R,
    names: Names<'j, '_>,
    texts: &'j Texts,
) -> Option<BothWays> {
    let Ok(sieve) = BothWays::new(rt.alloc(), WITHIN) else {
        return None;
    };
    let mut sieve = sieve;
    let job = Job {
        names,
        texts,
        changes: None,
        folder: None,
        scope: Scope::Whole,
    };
    let mut failed = FailedOutputs::new();
    match run_on_files(rt, job, &mut sieve, &mut Nobody, &mut failed) {
        Ok(_) => Some(sieve),
        Err(_) => None,
    }
}

/// How many records of the capture of a tap it left out.
fn echoes_at(sieve: &BothWays, counts: &RecordCounts, tap: Tap) -> Echoes {
    Echoes {
        tap,
        echoes: sieve.left_out(tap),
        records: counts.at(tap),
    }
}
