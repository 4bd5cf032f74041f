//! Why a job stops.
use std::alloc::{AllocError, AllocFailed};

/// What of a job answered a fault, or something else than it has to.
#[derive(Clone, Copy, Debug)]
pub enum Stage {
    Comparison,
    Counts,
    Outputs,
    Run,
}

/// Why a job stops.
#[derive(Clone, Copy, Debug, Drop)]
pub enum JobFault {
    /// Memory was refused.
    Memory,
    /// The part of the program that is measured answered a fault, or something else than it has to.
    Failed(Stage),
    /// The program's words name no job.
    Words,
}

impl From<AllocError> for JobFault {
    fn from(_error: AllocError) -> JobFault {
        JobFault::Memory
    }
}

impl<T: Drop> From<AllocFailed<T>> for JobFault {
    fn from(_error: AllocFailed<T>) -> JobFault {
        JobFault::Memory
    }
}
