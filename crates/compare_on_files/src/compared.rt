//! What was sent, compared with what was received.
ghost use Rattle.std.specs.Prelude.{◌≤◌, IfOk, option_map};
ghost use Rattle.compare_reports.specs.Times.{IsAsked};

use crate::lent::{Names, compare_lent, unless_same};
use crate::standard_output::StandardOutput;
use capture_compare::carried::{Manner, Sameness};
use compare_reports::{Asked, ClockFault, Segments, clock_of};
use program_files::{Failure, Shown, open_seen};
use record_match::Clock;
use std::io::Input;
use std::rt::Files;

/// What is compared, by the words.
#[derive(Clone, Copy)]
pub struct Compared<'a> {
    /// The capture of what was sent.
    pub sent: &'a str,
    /// The capture of what was received.
    pub received: &'a str,
    /// How much later a record may be received.
    pub within: Option<&'a str>,
    /// How far the clock of what was received is ahead.
    pub shift: Option<&'a str>,
    /// Whether what is of one alone is listed.
    pub lists: bool,
    /// What a table is by.
    pub by: Option<&'a str>,
    /// Whether frames to the addresses that no bridge forwards are left aside.
    pub ignores: bool,
    /// How it is printed.
    pub shown: Shown,
}

/// Compares two captures, and prints how many records were sent, were received, are both, and are of one alone. What was
/// compared before a fault is printed, too. Where both are the same it is done; else they differ.
#[inline(never)]
pub fn compare<'a, R: Files + Input + AllocGlobal + Print>(
    rt: &R,
    asked: Compared<'a>,
) -> Result<(), Failure<'a>> {
    let clock = clock_by(asked.within, asked.shift)?;
    let told = Asked::of(clock, asked.shift.is_some(), asked.lists, asked.by);
    let manner = Manner {
        sameness: Sameness::Whole,
        ignores_reserved: asked.ignores,
    };
    let names = Names {
        sent: asked.sent,
        received: asked.received,
    };
    let (_, mut sent) = open_seen(rt, asked.sent)?;
    let (_, mut received) = open_seen(rt, asked.received)?;
    let output: StandardOutput<'_, 'a, R, R::File> = StandardOutput::new(rt, asked.shown);
    let told_to = (output, Segments::none());
    let (_, _, counts) = compare_lent(told, &manner, names, &mut sent, &mut received, told_to)?;
    unless_same(counts)
}

/// The clock that the words ask for.
pub(crate) fn clock_by<'a>(
    within: Option<&'a str>,
    shift: Option<&'a str>,
) -> Result<Clock, Failure<'a>>
    ensures sent { IfOk result (λ clock. clock.sent_delay ≤ 2000000000000000000) }
    ensures received { IfOk result (λ clock. clock.received_delay ≤ 2000000000000000000) }
    ensures asked { IfOk result (λ clock. IsAsked (option_map (λ text. text.now) within.entry) (option_map (λ text. text.now) shift.entry)
        clock) }
{
    match clock_of(within, shift) {
        Ok(clock) => Ok(clock),
        Err(ClockFault::Within(text)) => Err(Failure::Within(text)),
        Err(ClockFault::Shift(text)) => Err(Failure::Shift(text)),
    }
}
