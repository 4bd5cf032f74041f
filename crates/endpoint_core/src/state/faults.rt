//! All causes for which changes are refused, for whoever goes through them.

use crate::state::ChangeFault;

/// All causes for which changes are refused, their numbers rising.
pub const CHANGE_FAULTS: [ChangeFault; 14] = [
    ChangeFault::NoSegment,
    ChangeFault::NoPort,
    ChangeFault::AlreadyThere,
    ChangeFault::NotThere,
    ChangeFault::FloodFull,
    ChangeFault::TableFull,
    ChangeFault::GroupAddress,
    ChangeFault::OutOfRange,
    ChangeFault::NoFamily,
    ChangeFault::OwnAddress,
    ChangeFault::SegmentThere,
    ChangeFault::PoolFull,
    ChangeFault::SegmentsFull,
    ChangeFault::NoTunnel,
];
