//! What the fault of a run over streams is to the program: an exit status, and why it gives up.
ghost use Rattle.std.specs.Prelude.{◌≡◌};
ghost use Rattle.program_files.specs.Status.{failure_status_of};
ghost use Rattle.text_calls.specs.Status.{stream_status_of};

use program_files::{Failure, OutputFile, exit_code};
use stream_run::{StreamFault, Target};

/// The exit status of a fault of a run over streams: that of the run's own fault, 3 for a read or a write that failed.
pub fn stream_code(fault: &StreamFault) -> u8
    ensures { result ≡ stream_status_of fault.now }
{
    match fault {
        StreamFault::Run(fault) => exit_code(fault),
        StreamFault::Read(_) | StreamFault::Write(_) => 3,
    }
}

/// That a run stopped, of whose captures the one of this name is the one that a failed read was of.
pub fn failure_of_run<'a>(name: &'a str, fault: StreamFault) -> Failure<'a>
    ensures { failure_status_of result ≡ stream_status_of fault }
{
    match fault {
        StreamFault::Run(fault) => Failure::Run(fault),
        StreamFault::Read(_) => Failure::Read(name),
        StreamFault::Write(Target::Port(number)) => {
            Failure::Write(OutputFile::Port(usize::from(number)))
        }
        StreamFault::Write(Target::Underlay) => Failure::Write(OutputFile::Underlay),
        StreamFault::Write(Target::Decisions) => Failure::Write(OutputFile::Decisions),
    }
}
