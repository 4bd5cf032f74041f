//! What a part of a run was made from.
use arrayvec::ArrayVec;

/// The most ports that a run has.
pub const MOST_PORTS: usize = 255;

/// What a part of a run was made from. Digests are of SHA-256 (FIPS 180-4).
#[derive(Debug, Drop)]
pub struct PartRecord<'a> {
    /// The list of the part's segments, without an end of line.
    pub segments: &'a str,
    /// The digest of the settings text.
    pub settings: [u8; 32],
    /// The digest of the changes text, where there is one.
    pub changes: Option<[u8; 32]>,
    /// The digests of the captures of port 1, port 2 and so on.
    pub ports: ArrayVec<[u8; 32], MOST_PORTS>,
    /// The digest of the underlay's capture.
    pub underlay: [u8; 32],
    /// Where the captures hold both directions, how long behind its frame what the switch itself sent was left out of them, in
    /// nanoseconds. None: they hold what came in alone.
    pub both: Option<u64>,
    /// How many events the part's decision lines tell.
    pub events: u64,
}
