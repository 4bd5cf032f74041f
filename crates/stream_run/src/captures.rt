//! What a run reads.
use pcap::stream::{Input, Source};

/// The captures that a run reads: those of the ports, that of port 1 first, and that of the underlay.
#[derive(Drop)]
pub struct Captures<R: Input> {
    pub ports: Vec<Source<R>>,
    pub underlay: Source<R>,
    /// Whether a read may wait: of regular files none does. Then all that was written goes out before a record is read that
    /// wasn't read ahead.
    pub may_wait: bool,
}
