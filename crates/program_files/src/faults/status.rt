//! The exit statuses of the faults of runs in memory.
ghost use Rattle.std.specs.Prelude.{◌≡◌};
ghost use Rattle.program_files.specs.Status.{status_of};

use capture_run::RunFault;

/// The exit status of a fault: 1 for a text or a capture that is refused, 3 for want of memory.
pub fn exit_code(fault: &RunFault) -> u8
    ensures { result ≡ status_of fault.now }
{
    match fault {
        RunFault::OutOfMemory => 3,
        _ => 1,
    }
}
