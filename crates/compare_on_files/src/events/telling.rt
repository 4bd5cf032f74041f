//! What a line tells of the records of a place.
ghost use Rattle.std.specs.Prelude.{◌≡◌, ◌≤◌, ◌<◌, IfOk, length};
ghost use Rattle.compare_on_files.specs.Finding.{step_by};

use crate::events::counting::count_at;
use crate::events::fault::EventFault;
use part_lines::{LineFacts, read_line};
use timeline::Tap;

/// The event of the next line, and how many records it has at a place.
#[derive(Clone, Copy)]
pub(crate) struct Step {
    /// The number of the event.
    pub(crate) number: u64,
    /// How many records.
    pub(crate) count: u64,
}

/// What a line tells of a place, behind the event of this number: the next event and how many records it has there. Behind the
/// last line, and at that of a cut capture, there is none.
#[tactic(auto, using(crate::proofs::Lines::few_places, crate::proofs::Lines::told_by_facts))]
pub(crate) fn step_by(line: &[u8], tap: Tap, last: u64) -> Result<Step, EventFault>
    requires { length line.now ≤ 131072 }
    ensures value { result ≡ step_by tap last line.now }
    ensures later { IfOk result (λ step. last < step.number) }
{
    if line.is_empty() {
        return Err(EventFault::Few);
    }
    match read_line(line) {
        Ok(LineFacts::Event(number, places)) => {
            if number <= last {
                return Err(EventFault::Falls(number));
            }
            Ok(Step {
                number,
                count: count_at(places, tap),
            })
        }
        Ok(LineFacts::Cut) => Err(EventFault::Few),
        Err(fault) => Err(EventFault::Line(fault)),
    }
}
