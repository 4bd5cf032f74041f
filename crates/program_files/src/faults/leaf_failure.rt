//! Why an endpoint isn't looked at among others.
use capture_run::RunFault;
use thiserror::Error;

/// Why an endpoint of many isn't looked at.
#[derive(Debug, Drop, Error)]
pub enum LeafFailure {
    /// Its settings are refused.
    #[error("{0}")]
    Refused(RunFault),
    /// One that is named before it has its name.
    #[error("another leaf has its name")]
    Twice,
    /// As many as can be looked at at once are named before it.
    #[error("a fabric has 1,024 leaves at most")]
    TooMany,
}
