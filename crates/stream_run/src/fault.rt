//! Why a run over streams stopped.
ghost use Rattle.std.specs.Prelude.{◌≡◌, Some};
ghost use Rattle.stream_run.specs.Fault.{fault_of, stopped};
ghost use Rattle.stream_run.specs.Words.{target_word};

use capture_run::RunFault;
use pcap::stream::SourceFault;
use pcap::text::{CaptureFault, RecordFault};
use std::fmt;
use thiserror::Error;
use timeline::Tap;

/// An output of a run. It prints as `p1` for port 1, as `u`, and as `decisions`.
#[derive(Clone, Copy, Debug, PartialEq, Eq)]
pub enum Target {
    /// The capture of a local port, by its number from 1.
    Port(u8),
    /// The capture of the underlay.
    Underlay,
    /// The decision lines.
    Decisions,
}

impl fmt::Display for Target {
    ghost output = { λ target. Some (target_word target) };

    fn fmt<W: fmt::Write>(&self, f: &mut fmt::Formatter<W>) -> fmt::Result {
        match self {
            Target::Port(port) => write!(f, "p{port}"),
            Target::Underlay => write!(f, "u"),
            Target::Decisions => write!(f, "decisions"),
        }
    }
}

/// Why a run over streams stopped. It prints as one line.
#[derive(Debug, Drop, Error)]
pub enum StreamFault {
    /// A text or a capture is refused, or memory was.
    #[error("{0}")]
    Run(RunFault),
    /// A read of this capture failed, or one more was needed than its source may make.
    #[error("read {0}")]
    Read(Tap),
    /// A write to this output failed, or took none of some octets.
    #[error("write {0}")]
    Write(Target),
}

/// Why a run stopped at an event: a few octets, where a [`StreamFault`] is moved with all that it may hold.
#[derive(Clone, Copy, Debug, PartialEq, Eq)]
pub enum Halt {
    /// A write to this output failed.
    Write(Target),
    /// The next record of the event's source isn't to be had.
    Source(SourceFault),
}

/// The fault of a run that stopped at an event of this source, behind which its record of this number, from 1, was asked for.
pub fn stopped_at(tap: Tap, number: u64, halt: Halt) -> StreamFault
    ensures { result ≡ stopped tap number halt }
{
    match halt {
        Halt::Write(target) => StreamFault::Write(target),
        Halt::Source(fault) => fault_at(tap, number, fault),
    }
}

/// The fault of a source at its record of this number, from 1, as one of the run.
pub fn fault_at(tap: Tap, number: u64, fault: SourceFault) -> StreamFault
    ensures { result ≡ fault_of tap number fault }
{
    match fault {
        SourceFault::Read => StreamFault::Read(tap),
        SourceFault::NotPcap => StreamFault::Run(RunFault::Capture(tap, CaptureFault::NotPcap)),
        SourceFault::BadLink => StreamFault::Run(RunFault::Capture(tap, CaptureFault::BadLink)),
        SourceFault::TooLarge => {
            StreamFault::Run(RunFault::Record(tap, number, RecordFault::TooLarge))
        }
        SourceFault::BadFraction => {
            StreamFault::Run(RunFault::Record(tap, number, RecordFault::BadFraction))
        }
    }
}
