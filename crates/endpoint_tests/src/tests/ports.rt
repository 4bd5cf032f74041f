//! Ports of tests.
use overlay::ports::{Accept, PortRule};
use wire::ether::Vid;

/// A port that is up, and whose frames without a tag are of this segment.
pub(crate) fn up_port(pvid: Vid) -> PortRule {
    PortRule {
        pvid,
        accept: Accept::All,
        up: true,
    }
}
