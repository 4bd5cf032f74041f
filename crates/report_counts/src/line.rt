//! What decision lines tell.

use crate::outcomes::Outcomes;
use timeline::{Source, Tap};

/// What a decision line tells.
#[derive(Drop)]
pub enum ReportLine<'a> {
    /// That of an event.
    Event(EventLine<'a>),
    /// A capture that ends with a cut rest behind so many whole records.
    Cut { tap: Tap, records: u64 },
}

/// What the line of an event tells.
#[derive(Drop)]
pub struct EventLine<'a> {
    /// Its number, from 1.
    pub event: u64,
    /// Its moment, in nanoseconds.
    pub moment: u64,
    /// Where it came from.
    pub source: Source,
    /// The number of the change or record in its source, from 1.
    pub number: u64,
    /// The VID of its segment, 1 to 4094, where there is one.
    pub segment: Option<u16>,
    /// What came of it.
    pub result: Outcome<'a>,
}

/// What came of an event.
#[derive(Drop)]
pub enum Outcome<'a> {
    /// It was sent at places, or wasn't there.
    Sent(Outcomes<'a>),
    /// It was dropped, for the reason of this number, 1 to 40.
    Dropped { reason: u8 },
    /// A change was made.
    Done,
    /// A change was refused, for the cause of this number, from 1.
    Refused { cause: u8 },
}
