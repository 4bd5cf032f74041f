//! Where the events of a run come from.
ghost use Rattle.std.specs.Prelude.{Some};
ghost use Rattle.timeline.specs.Words.{source_word, tap_word};

use std::fmt;

/// Where a capture is taken. It prints as `p1` for port 1, and as `u`.
#[derive(Clone, Copy, Debug, PartialEq, Eq)]
pub enum Tap {
    /// A local port, by its number from 1.
    Port(u8),
    /// The underlay.
    Underlay,
}

impl fmt::Display for Tap {
    ghost output = { λ tap. Some (tap_word tap) };

    fn fmt<W: fmt::Write>(&self, f: &mut fmt::Formatter<W>) -> fmt::Result {
        match self {
            Tap::Port(port) => write!(f, "p{port}"),
            Tap::Underlay => write!(f, "u"),
        }
    }
}

/// Where an event comes from. It prints as `c` for the changes, and as its tap.
#[derive(Clone, Copy)]
pub enum Source {
    /// The list of changes.
    Changes,
    /// A capture.
    Tap(Tap),
}

impl fmt::Display for Source {
    ghost output = { λ source. Some (source_word source) };

    fn fmt<W: fmt::Write>(&self, f: &mut fmt::Formatter<W>) -> fmt::Result {
        match self {
            Source::Changes => write!(f, "c"),
            Source::Tap(tap) => write!(f, "{tap}"),
        }
    }
}
