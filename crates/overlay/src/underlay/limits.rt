//! How much of each kind an endpoint has room for.

/// The limits in force, which no change touches. What no settings ask for isn't reserved.
#[derive(Clone, Copy, Debug, PartialEq, Eq)]
pub struct Limits {
    /// The most local ports, 1 to 255: 16 unless the settings say otherwise.
    pub ports: u8,
    /// The most segments, 1 to 4,094: 256 unless the settings say otherwise.
    pub segments: u16,
    /// The most remotes of a segment's flood list, over all its tunnels, 1 to 512: 16 unless the settings say otherwise.
    pub flood: u16,
    /// The most exceptions from the next hop, 1 to 4,096: 64 unless the settings say otherwise.
    pub hops: u16,
    /// The most entries that a segment's table may have, 1 to 131,072: 8,192 unless the settings say otherwise.
    pub entries: u32,
    /// The most entries that all tables together may have, 1 to 1,048,576: 65,536 unless the settings say otherwise.
    pub addresses: u32,
}
