//! Captures that have both directions: what the switch itself sent is left out of them.
ghost use Rattle.std.specs.Prelude.{◌≡◌, IfOk, is_some};

use crate::audit::RunAudit;
use both_ways::{Audited, BothWays, Placed, WITHIN};
use command_line::time_of;
use program_files::Failure;
use run_counts::{Flows, RunCounts};
use std::alloc::{AllocError, Global};
use std::rt::Files;
use stream_run::TakesAll;
use text_calls::tap_of;
use timeline::Tap;

/// How long behind its frame what the switch sent may come, in nanoseconds. None: the captures have what came in alone. Who
/// names a time asks for it.
pub fn within_of<'a>(both: bool, within: Option<&'a str>) -> Result<Option<u64>, Failure<'a>> {
    match within {
        Some(text) => match time_of(text) {
            Some(time) => Ok(Some(time)),
            None => Err(Failure::Within(text)),
        },
        None if both => Ok(Some(WITHIN)),
        None => Ok(None),
    }
}

/// What leaves that out of a run, where it is asked for.
pub fn sieve_for(alloc: Global, within: Option<u64>) -> Result<Option<BothWays>, AllocError>
    ensures { IfOk result (λ sieve. is_some sieve ≡ is_some within) }
{
    match within {
        Some(within) => {
            let sieve = BothWays::new(alloc, within)?;
            Ok(Some(sieve))
        }
        None => Ok(None),
    }
}

/// What tells how many records of a capture a run left out.
pub trait LeavesOut {
    /// How many records of this capture.
    fn left_out_at(&self, tap: Tap) -> u64;

    /// Whether it is known to have left out the record that the name at this place asks for.
    fn is_named(&self, _name: usize) -> bool {
        false
    }

    /// What is told of those that are asked for by name. `AllocError`: memory was refused meanwhile.
    fn told(&self) -> Result<&[u8], AllocError> {
        Ok(&[])
    }
}

impl LeavesOut for TakesAll {
    fn left_out_at(&self, _tap: Tap) -> u64 {
        0
    }
}

impl LeavesOut for BothWays {
    fn left_out_at(&self, tap: Tap) -> u64 {
        self.left_out(tap)
    }
}

impl<R: Files + AllocGlobal + Print> LeavesOut for Audited<RunAudit<'_, R>> {
    fn left_out_at(&self, tap: Tap) -> u64 {
        self.both.left_out(tap)
    }

    fn is_named(&self, name: usize) -> bool {
        self.audit.is_named(name)
    }

    fn told(&self) -> Result<&[u8], AllocError> {
        self.audit.told()
    }
}

/// How many records the captures at these taps have: those that came, and those that were left out.
pub fn records_at<L: LeavesOut>(counts: &RunCounts, sieve: &L, taps: &[Tap]) -> Flows {
    let mut records = Flows::none();
    for tap in taps {
        let mut flow = counts.came(*tap);
        flow.frames = flow.frames.saturating_add(sieve.left_out_at(*tap));
        records.set(*tap, flow);
    }
    records
}

/// Tells of the captures of so many ports and of the underlay how many records were left out, of these how many where the run sent
/// nothing, if it is known where it did, and below that what was forgotten for want of room.
pub fn tell_left_out(rt: &impl Eprint, sieve: &BothWays, placed: Option<&Placed>, ports: usize) {
    for index in 0..ports {
        tell_left_out_at(rt, sieve, tap_of(index));
        if let Some(placed) = placed {
            tell_unplaced_at(rt, placed, tap_of(index));
        }
    }
    tell_left_out_at(rt, sieve, Tap::Underlay);
    if let Some(line) = sieve.forgotten_line() {
        let _ = eprintln!(rt; "  {line}");
    }
}

/// Tells how many records of a capture were left out, if any.
fn tell_left_out_at(rt: &impl Eprint, sieve: &BothWays, tap: Tap) {
    match sieve.left_out(tap) {
        0 => {}
        1 => {
            let _ = eprintln!(rt; "  {tap}: left out 1 record that the switch sent");
        }
        count => {
            let _ = eprintln!(rt; "  {tap}: left out {count} records that the switch sent");
        }
    }
}

/// Tells how many of them are echoes where the run sent nothing, if any.
fn tell_unplaced_at(rt: &impl Eprint, placed: &Placed, tap: Tap) {
    let count = placed.unplaced(tap);
    if count > 0 {
        let _ = eprintln!(rt; "  {tap}: {count} of them where the run sent nothing");
    }
}
