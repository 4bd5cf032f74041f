//! Captures of one way, compared as the program does.

use crate::devices::open;
use crate::digest::Digest;
use crate::draws::Draws;
use crate::fault::{JobFault, Stage};
use crate::way::{Counts, Place, WITHIN, Way};
use capture_compare::carried::{KeyRoom, Manner, Sameness, Tunnels};
use capture_compare::{Aside, compare_captures};
use record_match::{Clock, Comparison, Nobody};
use std::alloc::Global;

/// Captures of a port and of the underlay, made anew in each round and compared: the counts are those by which they were made.
pub fn compared(
    alloc: Global,
    digest: &mut Digest,
    draws: Draws,
    rounds: u32,
    records: u32,
) -> Result<(), JobFault> {
    let mut way = Way::new(alloc, draws, records)?;
    let whole = Manner {
        sameness: Sameness::Whole,
        ignores_reserved: false,
    };
    let carried = Manner {
        sameness: Sameness::Carried(Tunnels::standard()),
        ignores_reserved: false,
    };
    for _round in 0..rounds {
        way.make(Place::Port, records);
        add_counts(digest, &way, counts_of(alloc, &way, &whole)?)?;
        way.make(Place::Underlay, records);
        add_counts(digest, &way, counts_of(alloc, &way, &carried)?)?;
    }
    Ok(())
}

/// What a comparison of the two captures counts.
fn counts_of(alloc: Global, way: &Way, manner: &Manner) -> Result<Counts, JobFault> {
    let clock = Clock::same(WITHIN);
    let mut sent = open(alloc, way.sent())?;
    let mut received = open(alloc, way.received())?;
    let mut comparison = Comparison::new(alloc, clock.within)?;
    let mut room = KeyRoom::new(alloc)?;
    let end = compare_captures(
        &mut sent,
        &mut received,
        clock,
        manner,
        &mut room,
        &mut comparison,
        &mut Aside::none(),
        &mut Nobody,
    );
    if end.is_err() {
        return Err(JobFault::Failed(Stage::Comparison));
    }
    Ok(Counts {
        sent: comparison.sent(),
        received: comparison.received(),
        both: comparison.both(),
    })
}

/// Adds what was counted, where it is that by which the captures were made.
fn add_counts(digest: &mut Digest, way: &Way, counts: Counts) -> Result<(), JobFault> {
    let made = way.counts();
    if counts.sent != made.sent || counts.received != made.received || counts.both != made.both {
        return Err(JobFault::Failed(Stage::Counts));
    }
    digest.add_number(counts.sent);
    digest.add_number(counts.received);
    digest.add_number(counts.both);
    Ok(())
}
