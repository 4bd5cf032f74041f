//! Records that two captures are compared by, counted by the segments of an endpoint's settings.
//!
//! Use first: [`SegmentCounts`] is opened with settings, looks on while captures are compared, and counts each record that it is
//! told in the row of its segment. [`SegmentIndex`] says which segment that is: of a frame by its tag and its port's PVID (IEEE
//! 802.1Q, 6.9), of a packet by the kind and the VNI of its tunnel (RFC 7348, 4; RFC 8926, 3.4). [`PlaceReading`] says how the
//! octets that it is told are read.
//!
//! Specs to read, in order: `specs/Segments`, `specs/Counting`, `specs/Laws`.
//!
//! Proved: of all octets the segment is the definition's. What is told of a record adds one to the counts that it belongs to, in
//! the row of its segment, up to the greatest number, and changes no other. By the law of [`laws`] each row has as many as the
//! facts that were told have records of its segment.
//!
//! Proved besides:
//! - Which segment of settings a record is of is that of the definition: of a frame by its tag and the PVID of its
//!   port, of a packet by the kind and the VNI of its tunnel, where there is such a segment:
//!   `SegmentIndex::segment_at`. The index has the segments and the ports of the settings that it is opened with:
//!   `SegmentIndex::open`.
//! - What is told of a record, that it is both, was received alone or was sent alone, adds one to these counts in the
//!   row of its segment, up to the greatest number, and changes no other row: `SegmentCounts`. So each row has as many
//!   as the facts that were told have records of it: `each_row_counts_its_facts`.
//!
//! Why it is so: a frame that leaves untagged doesn't tell its VLAN, so it counts for its port's PVID, also where it is of
//! another segment that the port has untagged.

mod counting;
mod index;
pub mod laws;
mod reading;
mod rows;

pub use counting::SegmentCounts;
pub use index::SegmentIndex;
pub use reading::PlaceReading;
pub use rows::SegmentRows;
