//! Why a text is no summary.
use std::alloc::AllocError;
use thiserror::Error;

/// Why a text is no summary. It prints as one line.
#[derive(Clone, Copy, Debug, Drop, PartialEq, Eq, Error)]
pub enum ReportFault {
    /// A growth was refused.
    #[error("memory")]
    OutOfMemory,
    /// The line of this number, from 1, isn't what stands there in such a text; behind the last line that it lacks one.
    #[error("line {0}")]
    Line(usize),
}

impl From<AllocError> for ReportFault {
    ghost use Rattle.std.specs.Prelude.{◌≡◌};
    ghost use Rattle.run_counts.specs.declared.parts.fault.ReportFault.TheVariants.{OutOfMemory};

    ghost from_gives = { λ _ fault. fault ≡ OutOfMemory };

    fn from(_error: AllocError) -> ReportFault {
        ReportFault::OutOfMemory
    }
}
