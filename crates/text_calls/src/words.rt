//! What words of the program's line name.
ghost use Rattle.std.specs.Prelude.{◌≡◌, ◌≤◌, ◌<◌, ◌+◌, IfNone, IfSome, Err, Ok};
ghost use Rattle.timeline.specs.declared.source.Tap.TheVariants.{Port};
ghost use Rattle.segment_set.specs.Lists.{meaning};
ghost use Rattle.segment_set.specs.Segments.{All, Segments};
ghost use Rattle.segment_set.specs.declared.fault.ListFault.{ListFault as AListFault};
ghost use Rattle.program_files.specs.declared.faults.failure.Failure.TheVariants as failures;

use program_files::Failure;
use segment_set::SegmentSet;
use timeline::Tap;

/// The tap of the port behind so many others; that of port 255 behind 254 and more.
pub fn tap_of(index: usize) -> Tap
    ensures numbered { index < 255 → result ≡ Port (index + 1) }
    ensures last { 255 ≤ index → result ≡ Port 255 }
{
    if index < 255 {
        Tap::Port(index as u8 + 1)
    } else {
        Tap::Port(u8::MAX)
    }
}

/// The segments of a part by their list, or all of them, where there is none.
pub fn segments_of<'a>(list: Option<&str>) -> Result<SegmentSet, Failure<'a>>
    ensures all { IfNone list.entry (result ≡ Ok All) }
    ensures asked { IfSome list.entry (λ text. (segments : Segments) → meaning text.now ≡ Ok segments → result ≡ Ok segments) }
    ensures refused { IfSome list.entry (λ text. (fault : AListFault)
        → meaning text.now ≡ Err fault → result ≡ Err (failures.Segments fault)) }
{
    match list {
        Some(list) => match SegmentSet::parse(list) {
            Ok(segments) => Ok(segments),
            Err(fault) => Err(Failure::Segments(fault)),
        },
        None => Ok(SegmentSet::all()),
    }
}
