//! How many records are cut.

/// How many records of two captures are cut: not all their octets were captured.
#[derive(Clone, Copy, Debug, PartialEq, Eq)]
pub struct Cut {
    /// Of those that were sent.
    pub sent: u64,
    /// Of those that were received.
    pub received: u64,
}
