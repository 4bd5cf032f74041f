//! Why what a run wrote isn't compared with what was captured.
use crate::faults::decisions_fault::DecisionsFault;
use crate::faults::failure::OutputFile;
use std::fmt;
use thiserror::Error;
use timeline::Tap;

/// Why what a run wrote isn't compared with what was captured.
#[derive(Debug, Drop, Error)]
pub enum WorkedFailure {
    /// The folder lacks what a run writes, so no run wrote into it, or one of fewer ports.
    #[error("it has no {0}")]
    Lacks(OutputFile),
    /// The folder has a capture of a port more.
    #[error("no capture is named beside its {0}")]
    Alone(OutputFile),
    /// The same capture is named for two places.
    #[error("it is named for two places")]
    Twice,
    /// This line of a text in the folder isn't what stands there in such a text.
    #[error("{0}: line {1}")]
    Line(OutputFile, u64),
    /// The decision lines of the run don't tell the event of a record of this place.
    #[error("decisions.txt for {0}: {1}")]
    Decisions(Tap, DecisionsFault),
}
