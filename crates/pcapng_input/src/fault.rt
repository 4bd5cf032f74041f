//! Why a pcapng text isn't read.
ghost use Rattle.std.specs.Prelude.{◌≡◌};
ghost use Rattle.pcapng_input.specs.declared.fault.PcapngError.TheVariants.{OutOfMemory};

use std::alloc::{AllocError, AllocFailed};
use thiserror::Error;

/// What is wrong with a block.
#[derive(Clone, Copy, Debug, PartialEq, Eq, Error)]
pub enum BlockFault {
    /// The text doesn't begin with a section header, or a section header has no byte-order magic.
    #[error("NoSection")]
    NoSection,
    /// The section's major version isn't 1.
    #[error("BadVersion")]
    BadVersion,
    /// The length of the block is below 12 octets or no multiple of 4, or its second copy differs.
    #[error("BadLength")]
    BadLength,
    /// The block, or one of its options, ends before its fields.
    #[error("ShortBlock")]
    ShortBlock,
    /// The section has more than 4,096 interfaces.
    #[error("TooManyInterfaces")]
    TooManyInterfaces,
    /// The packet's interface wasn't described.
    #[error("UnknownInterface")]
    UnknownInterface,
    /// The link type of the packet's interface isn't 1, Ethernet.
    #[error("BadLink")]
    BadLink,
    /// The packet has more than 262,144 octets, or the block of a section, an interface or a packet more than 327,680.
    #[error("TooLarge")]
    TooLarge,
    /// The moment is before 1970, or past the last one that a classic capture can tell.
    #[error("BadMoment")]
    BadMoment,
}

/// The first fault of a pcapng text, and the block that has it. It prints as one line.
#[derive(Clone, Copy, Debug, PartialEq, Eq, Error)]
#[error("block {block} at octet {offset}: {fault}")]
pub struct PcapngFault {
    pub fault: BlockFault,
    /// The number of the block, from 1.
    pub block: u64,
    /// How many octets stand before the block.
    pub offset: u64,
}

/// Why there is no classic capture.
#[derive(Clone, Copy, Debug, PartialEq, Eq, Error)]
pub enum PcapngError {
    /// The text has a fault.
    #[error("{0}")]
    Faulty(PcapngFault),
    /// Memory was refused.
    #[error("memory")]
    OutOfMemory,
}

impl From<AllocError> for PcapngError {
    ghost from_gives = { λ _ error. error ≡ OutOfMemory };

    fn from(_error: AllocError) -> PcapngError {
        PcapngError::OutOfMemory
    }
}

impl<T: Drop> From<AllocFailed<T>> for PcapngError {
    ghost from_gives = { λ _ error. error ≡ OutOfMemory };

    fn from(_error: AllocFailed<T>) -> PcapngError {
        PcapngError::OutOfMemory
    }
}
