//! Why a run has no outputs.
ghost use Rattle.std.specs.Prelude.{◌≡◌};
ghost use Rattle.capture_run.specs.Fault.{of_changes, of_settings, of_timeline};
ghost use Rattle.capture_run.specs.declared.fault.RunFault.TheVariants.{OutOfMemory};

use config_text::SettingsFault;
use pcap::text::{CaptureFault, RecordFault};
use std::alloc::AllocError;
use thiserror::Error;
use timeline::{Tap, TimelineFault};

/// Why a run has no outputs: the first cause in this order. It prints as one line.
#[derive(Debug, Drop, Error)]
pub enum RunFault {
    /// The settings text is refused. The fault is never `OutOfMemory`.
    #[error("settings: {0}")]
    Settings(SettingsFault),
    /// The changes text is refused. The fault is never `OutOfMemory`.
    #[error("changes: {0}")]
    Changes(SettingsFault),
    /// There are more or fewer captures than the settings have ports.
    #[error("captures: PortCount")]
    PortCount,
    /// A capture isn't opened.
    #[error("{0}: {1}")]
    Capture(Tap, CaptureFault),
    /// The record of this number, from 1, isn't read.
    #[error("{0}: {2} {1}")]
    Record(Tap, u64, RecordFault),
    /// Memory was refused.
    #[error("memory")]
    OutOfMemory,
}

impl From<AllocError> for RunFault {
    ghost from_gives = { λ _ fault. fault ≡ OutOfMemory };

    fn from(_error: AllocError) -> RunFault {
        RunFault::OutOfMemory
    }
}

/// A fault of the captures as one of the run.
pub fn of_captures(fault: TimelineFault) -> RunFault
    ensures { result ≡ of_timeline fault }
{
    match fault {
        TimelineFault::Capture(tap, fault) => RunFault::Capture(tap, fault),
        TimelineFault::Record(tap, number, fault) => RunFault::Record(tap, number, fault),
        TimelineFault::OutOfMemory => RunFault::OutOfMemory,
    }
}

/// A fault of the settings text as one of the run.
pub fn of_settings(fault: SettingsFault) -> RunFault
    ensures { result ≡ of_settings fault }
{
    match fault {
        SettingsFault::OutOfMemory => RunFault::OutOfMemory,
        fault => RunFault::Settings(fault),
    }
}

/// A fault of the changes text as one of the run.
pub fn of_changes(fault: SettingsFault) -> RunFault
    ensures { result ≡ of_changes fault }
{
    match fault {
        SettingsFault::OutOfMemory => RunFault::OutOfMemory,
        fault => RunFault::Changes(fault),
    }
}
