//! What the next line of a part is of.
ghost use Rattle.std.specs.Prelude.{◌≡◌, IfOk, IfSome};
ghost use Rattle.part_merge.specs.Blame.{BlamesNoRead, BlamesNoWrite};
ghost use Rattle.part_merge.specs.Coming.{coming_in, is_cut, is_over, stopped_by};
ghost use Rattle.part_merge.specs.Told.{IsPlaced, coming_told};

use crate::fault::MergeFault;
use line_stream::LinesFault;
use part_lines::{LineParts, PartFault, find_parts};

/// What a part's next line is of.
#[derive(Clone, Copy, Debug, PartialEq, Eq)]
pub enum Coming {
    /// The event of this number.
    Event(u64),
    /// A cut capture.
    Cut,
    /// There is none.
    Nothing,
}

/// What a part keeps of its next line.
#[derive(Clone, Copy)]
pub(crate) struct Told {
    pub(crate) coming: Coming,
    /// Where the line's result begins, if it is of an event.
    pub(crate) begins: Option<usize>,
}

/// What a line is of, where it is the line of a part or nothing behind its last. `was_cut`: the line before it was of a cut
/// capture.
pub(crate) fn coming_of(part: usize, was_cut: bool, line: &[u8]) -> Result<Told, MergeFault>
    ensures coming { coming_told result ≡ coming_in part was_cut line.now }
    ensures placed { IfOk result (λ told. IfSome told.begins (IsPlaced line.now)) }
    ensures no_read { BlamesNoRead result }
    ensures no_write { BlamesNoWrite result }
{
    if line.is_empty() {
        return Ok(Told {
            coming: Coming::Nothing,
            begins: None,
        });
    }
    match find_parts(line) {
        Ok(LineParts::Event(number, at)) => {
            if was_cut {
                Err(MergeFault::Part(part, PartFault::Late))
            } else {
                Ok(Told {
                    coming: Coming::Event(number),
                    begins: Some(at),
                })
            }
        }
        Ok(LineParts::Cut) => Ok(Told {
            coming: Coming::Cut,
            begins: None,
        }),
        Err(fault) => Err(MergeFault::Part(part, PartFault::Line(fault))),
    }
}

/// Whether a line is of a cut capture.
pub(crate) fn is_cut(coming: Coming) -> bool
    ensures { result ≡ is_cut coming }
{
    match coming {
        Coming::Cut => true,
        _ => false,
    }
}

/// Whether no line of a cut capture comes.
pub(crate) fn is_over(coming: Coming) -> bool
    ensures { result ≡ is_over coming }
{
    match coming {
        Coming::Cut => false,
        _ => true,
    }
}

/// Why a merge stops where a part's line isn't lent.
pub(crate) fn stopped_by(part: usize, fault: LinesFault) -> MergeFault
    ensures { result ≡ stopped_by part fault }
{
    match fault {
        LinesFault::Read => MergeFault::Read(part),
        LinesFault::TooLong => MergeFault::Part(part, PartFault::LongLine),
    }
}
