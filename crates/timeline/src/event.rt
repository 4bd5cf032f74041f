//! Events: what happens when, and where it stands in its source.
ghost use Rattle.std.specs.Prelude.{◌≡◌};
ghost use Rattle.timeline.specs.Words.{source_of};

use crate::source::{Source, Tap};
use std::marker::Model;

/// What a record of a capture tells of a frame.
#[derive(Drop)]
pub struct Captured<'a> {
    /// How many octets the frame had. Fewer may be here, or even more.
    pub original: u32,
    /// The octets that were captured, at most 262,144: a slice of the capture.
    pub octets: &'a [u8],
}

impl<'a> Model for Captured<'a> {
    ghost use Rattle.timeline.specs.Captured.{Captured};

    ghost Value = { Captured };

    ghost view = { λ c. record { original = c.original; octets = c.octets.now } };
}

/// What happens.
#[derive(Drop)]
pub enum Happening<'a> {
    /// The change with this index in the list of changes.
    Change(usize),
    /// A frame at a local port, or a packet at the underlay.
    Record(Tap, Captured<'a>),
}

/// An event of a run.
#[derive(Drop)]
pub struct Event<'a> {
    /// Nanoseconds. For a record the greatest moment so far in its capture.
    pub moment: u64,
    /// The number of the change or record in its source, from 1.
    pub number: u64,
    pub happening: Happening<'a>,
}

impl<'a> Event<'a> {
    /// Where it comes from.
    pub fn source(&self) -> Source
        ensures { result ≡ source_of self.now.happening }
    {
        match &self.happening {
            Happening::Change(_) => Source::Changes,
            Happening::Record(tap, _) => Source::Tap(*tap),
        }
    }
}
