//! What a run leaves besides its outputs.
use crate::outbound::{Outbound, outbound_of};
use crate::run_captures::{RunCaptures, cut_taps, octets_read};
use part_record::{CaptureDigests, digests_taken};
use program_files::PartRecordFile;
use std::alloc::{AllocError, Global};
use std::io::Read;
use timeline::Tap;

/// What a run leaves besides its outputs.
#[derive(Drop)]
pub(crate) struct Done<F: Drop> {
    /// The captures of which the rest is cut, ports rising and the underlay last.
    pub(crate) cut: Vec<Tap>,
    /// What they tell as outbound, which was left out.
    pub(crate) outbound: Vec<Outbound>,
    /// How many octets the captures of the ports had, as classic pcap.
    pub(crate) ports: Vec<u64>,
    /// And how many that of the underlay.
    pub(crate) underlay: u64,
    /// The digests of these octets, where they were taken.
    pub(crate) digests: Option<CaptureDigests>,
    /// The empty file in which a part is to say what it was made from, and the sums of its outputs.
    pub(crate) part_file: Option<PartRecordFile<F>>,
}

/// What a run on these captures leaves besides its outputs.
pub(crate) fn done_on<F: Read + Drop, I: Read + Drop>(
    alloc: Global,
    captures: &RunCaptures<'_, F, I>,
    part_file: Option<PartRecordFile<F>>,
) -> Result<Done<F>, AllocError> {
    let cut = cut_taps(alloc, captures)?;
    let outbound = outbound_of(alloc, captures)?;
    let counts = octets_read(alloc, captures.ports.as_slice())?;
    Ok(Done {
        cut,
        outbound,
        ports: counts,
        underlay: captures.underlay.input().octets(),
        digests: digests_taken(captures.ports.as_slice(), &captures.underlay),
        part_file,
    })
}
