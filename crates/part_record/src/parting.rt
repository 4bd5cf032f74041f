//! Whether the parts of a run are all of it.
ghost use Rattle.std.specs.Prelude.{◌≡◌, IfErr, OnOk};
ghost use Rattle.part_record.specs.Parting.{IsPartedBadly, IsWhole, times};

use segment_set::SegmentSet;
use thiserror::Error;
use wire::ether::Vid;

/// The number behind the last VID.
const VIDS_END: u16 = 4095;

/// Why some parts aren't a whole run. It prints as a sentence without its full stop.
#[derive(Clone, Copy, Debug, PartialEq, Eq, Error)]
pub enum PartingFault {
    /// No part has the segment of this VID.
    #[error("no part has segment {0}")]
    Missing(u16),
    /// More than one part has the segment of this VID.
    #[error("more than one part has segment {0}")]
    Doubled(u16),
    /// No part has what comes to no segment.
    #[error("no part has what comes to no segment ('none')")]
    NoneMissing,
    /// More than one part has what comes to no segment.
    #[error("more than one part has what comes to no segment ('none')")]
    NoneDoubled,
}

/// Whether each segment, of VIDs 1 to 4094, and what comes to none are in exactly one of these parts. `Err`: the lowest VID
/// that isn't, and `none` behind all of them.
pub fn part_all(parts: &[SegmentSet]) -> Result<(), PartingFault>
    ensures ok { OnOk result (IsWhole parts.now) }
    ensures fault { IfErr result (λ fault. IsPartedBadly fault parts.now) }
{
    for number in 1..VIDS_END {
        if let Some(vid) = Vid::new(number) {
            match times(parts, Some(vid)) {
                0 => return Err(PartingFault::Missing(number)),
                1 => {}
                _ => return Err(PartingFault::Doubled(number)),
            }
        }
    }
    match times(parts, None) {
        0 => Err(PartingFault::NoneMissing),
        1 => Ok(()),
        _ => Err(PartingFault::NoneDoubled),
    }
}

/// In how many parts a segment is; None: what comes to no segment.
fn times(parts: &[SegmentSet], segment: Option<Vid>) -> usize
    ensures { result ≡ times parts.now segment }
{
    parts.iter().filter(|part| part.has(segment)).count()
}
