//! The whole line of a record that is of one capture alone.
ghost use Rattle.std.specs.Prelude.{Some};
ghost use Rattle.capture_compare.specs.Lonely.{behind_difference, behind_event, behind_segment, lonely_line};

use crate::lines::lonely::Lonely;
use crate::lonely::{Difference, RecordSegment};
use std::fmt;

/// A record that is of one capture alone, and what is told of it. It prints as its line.
#[derive(Clone, Copy)]
pub struct LonelyLine {
    pub record: Lonely,
    /// Its segment, where its place is told.
    pub segment: Option<RecordSegment>,
    /// The number of its event, of one that a run worked out.
    pub event: Option<u64>,
    /// What of a near one differs.
    pub difference: Option<Difference>,
}

impl fmt::Display for LonelyLine {
    ghost output = { λ line. Some (lonely_line line) };

    fn fmt<W: fmt::Write>(&self, f: &mut fmt::Formatter<W>) -> fmt::Result {
        let record = self.record;
        let segment = BehindRecord(self.segment);
        let event = BehindSegment(self.event);
        let difference = BehindEvent(self.difference);
        write!(f, "{record}{segment}{event}{difference}\n")
    }
}

/// The segment behind the numbers of a record.
#[derive(Clone, Copy)]
struct BehindRecord(Option<RecordSegment>);

impl fmt::Display for BehindRecord {
    ghost output = { λ behind. Some (behind_segment behind.0) };

    fn fmt<W: fmt::Write>(&self, f: &mut fmt::Formatter<W>) -> fmt::Result {
        match self.0 {
            None => Ok(()),
            Some(segment) => write!(f, " {segment}"),
        }
    }
}

/// The event behind a segment.
#[derive(Clone, Copy)]
struct BehindSegment(Option<u64>);

impl fmt::Display for BehindSegment {
    ghost output = { λ behind. Some (behind_event behind.0) };

    fn fmt<W: fmt::Write>(&self, f: &mut fmt::Formatter<W>) -> fmt::Result {
        match self.0 {
            None => Ok(()),
            Some(event) => write!(f, " event {event}"),
        }
    }
}

/// The difference behind an event.
#[derive(Clone, Copy)]
struct BehindEvent(Option<Difference>);

impl fmt::Display for BehindEvent {
    ghost output = { λ behind. Some (behind_difference behind.0) };

    fn fmt<W: fmt::Write>(&self, f: &mut fmt::Formatter<W>) -> fmt::Result {
        match self.0 {
            None => Ok(()),
            Some(difference) => write!(f, " {difference}"),
        }
    }
}
