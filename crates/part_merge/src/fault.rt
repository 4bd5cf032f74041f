//! Why parts can't be put together.
ghost use Rattle.std.specs.Prelude.{Some};
ghost use Rattle.part_merge.specs.Words.{target_word};

use part_lines::PartFault;
use std::fmt;
use thiserror::Error;
use timeline::Tap;

/// An output of a merge. It prints as `p1` for port 1, as `u`, and as `decisions`.
#[derive(Clone, Copy, Debug, PartialEq, Eq)]
pub enum Target {
    /// A capture.
    Capture(Tap),
    /// The decision lines.
    Decisions,
}

impl fmt::Display for Target {
    ghost output = { λ target. Some (target_word target) };

    fn fmt<W: fmt::Write>(&self, f: &mut fmt::Formatter<W>) -> fmt::Result {
        match self {
            Target::Capture(tap) => write!(f, "{tap}"),
            Target::Decisions => write!(f, "decisions"),
        }
    }
}

/// Why parts can't be put together. Parts are numbered from 0, in the order in which they are lent.
#[derive(Clone, Copy, Debug, PartialEq, Eq, Error)]
pub enum MergeFault {
    /// A read of the decision lines or of a capture of this part failed, or one more was needed than may be made.
    #[error("read part {0}")]
    Read(usize),
    /// A write to this output failed, or took none of some octets.
    #[error("write {0}")]
    Write(Target),
    /// Where the event of this number was to come, no part has it, and one has an event of a greater one.
    #[error("missing {0}")]
    Missing(u64),
    /// This part is wrong.
    #[error("part {0}: {1}")]
    Part(usize, PartFault),
}
