//! Why captures aren't read.
ghost use Rattle.std.specs.Prelude.{◌≡◌};
ghost use Rattle.timeline.specs.declared.fault.TimelineFault.TheVariants.{OutOfMemory};

use crate::source::Tap;
use pcap::text::{CaptureFault, RecordFault};
use std::alloc::{AllocError, AllocFailed};
use thiserror::Error;

/// Why the captures of a run aren't read.
#[derive(Clone, Copy, Debug, PartialEq, Eq, Error)]
pub enum TimelineFault {
    /// A capture isn't opened.
    #[error("{0}: {1}")]
    Capture(Tap, CaptureFault),
    /// The record of this number, from 1, isn't read.
    #[error("{0}: {2} {1}")]
    Record(Tap, u64, RecordFault),
    /// Memory was refused.
    #[error("memory")]
    OutOfMemory,
}

impl From<AllocError> for TimelineFault {
    ghost from_gives = { λ _ fault. fault ≡ OutOfMemory };

    fn from(_error: AllocError) -> TimelineFault {
        TimelineFault::OutOfMemory
    }
}

impl<T: Drop> From<AllocFailed<T>> for TimelineFault {
    ghost from_gives = { λ _ fault. fault ≡ OutOfMemory };

    fn from(_error: AllocFailed<T>) -> TimelineFault {
        TimelineFault::OutOfMemory
    }
}
