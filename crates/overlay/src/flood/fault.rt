//! Why a flood list isn't changed.
use thiserror::Error;

/// Why an entry isn't added. The order is that of the checks.
#[derive(Clone, Copy, Debug, PartialEq, Eq, Error)]
pub enum FloodFault {
    /// The address is 0.0.0.0, 255.255.255.255 or ::.
    #[error("OutOfRange")]
    OutOfRange,
    /// The endpoint has no own address of this family.
    #[error("NoFamily")]
    NoFamily,
    /// The address is the endpoint's own.
    #[error("OwnAddress")]
    OwnAddress,
    /// The entry is on the list.
    #[error("AlreadyThere")]
    AlreadyThere,
    /// The list has as many entries as its limit says, or 512.
    #[error("FloodFull")]
    FloodFull,
}

/// The entry isn't on the list.
#[derive(Clone, Copy, Debug, PartialEq, Eq, Error)]
#[error("NotThere")]
pub struct NotThere;
