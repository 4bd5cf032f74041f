//! Why a text tells no traffic of tunnels.
use std::alloc::AllocError;
use thiserror::Error;

/// Why a text tells no traffic of tunnels. It prints as one line.
#[derive(Clone, Copy, Debug, Drop, PartialEq, Eq, Error)]
pub enum TrafficFault {
    /// A growth was refused.
    #[error("memory")]
    OutOfMemory,
    /// The line of this number, from 1, isn't what stands there in such a text; behind the last line that it lacks one.
    #[error("line {0}")]
    Line(usize),
}

impl From<AllocError> for TrafficFault {
    ghost use Rattle.std.specs.Prelude.{◌≡◌};
    ghost use Rattle.tunnel_traffic.specs.declared.told.fault.TrafficFault.TheVariants.{OutOfMemory};

    ghost from_gives = { λ _ fault. fault ≡ OutOfMemory };

    fn from(_error: AllocError) -> TrafficFault {
        TrafficFault::OutOfMemory
    }
}
