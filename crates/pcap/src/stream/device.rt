//! What each device may do.
//!
//! A reader or a writer of std's counts as one call however often a signal interrupts it, up to 16 times; the 17th interruption
//! is a fault.
use thiserror::Error;

/// A device failed. It says no more.
#[derive(Clone, Copy, Debug, PartialEq, Eq, Error)]
#[error("the device failed")]
pub struct DeviceFault;

/// How often a device over std's tries in one call: once, and at most 16 times more where a signal came between.
pub const TRIES: u8 = 17;
