//! What can be wrong with a text.
ghost use Rattle.config_text.specs.declared.fault.SettingsFault.TheVariants.{OutOfMemory};

use crate::key::Key;
use std::alloc::{AllocError, AllocFailed};
use thiserror::Error;

/// The first fault of a text, with the path of its key.
#[derive(Debug, Drop, Error)]
pub enum SettingsFault {
    /// The text isn't UTF-8, or no TOML document.
    #[error("NotToml")]
    NotToml,
    /// A key is required and absent.
    #[error("Missing {0}")]
    Missing(Key),
    /// A value of another type or outside its range, or a key that the table doesn't have.
    #[error("BadValue {0}")]
    BadValue(Key),
    /// A segment like an earlier one.
    #[error("TwoSegments {0}")]
    TwoSegments(Key),
    /// A moment below the one before it.
    #[error("NotRising {0}")]
    NotRising(Key),
    /// More than there may be.
    #[error("OverLimit {0}")]
    OverLimit(Key),
    /// Memory was refused.
    #[error("OutOfMemory")]
    OutOfMemory,
}

impl From<AllocError> for SettingsFault {
    ghost from_gives = { λ _ e. e ≡ OutOfMemory };

    ghost use Rattle.std.specs.Prelude.{◌≡◌};

    fn from(_refused: AllocError) -> SettingsFault {
        SettingsFault::OutOfMemory
    }
}

impl<T: Drop> From<AllocFailed<T>> for SettingsFault {
    ghost use Rattle.std.specs.Prelude.{◌≡◌};

    ghost from_gives = { λ _ e. e ≡ OutOfMemory };

    fn from(_refused: AllocFailed<T>) -> SettingsFault {
        SettingsFault::OutOfMemory
    }
}
