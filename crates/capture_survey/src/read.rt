//! The records of a capture, counted one after another.
ghost use Rattle.std.specs.Prelude.{◌≡◌, ◌<◌, ◌^◌, ℕ, List, []};
ghost use Rattle.pcap.specs.InTurn.{IsReading};
ghost use Rattle.pcap.specs.Source.{most_left};
ghost use Rattle.capture_survey.specs.Survey.{IsOpen, ReadsAll, ReadsWith};

use crate::fault::{SurveyFault, source_fault};
use crate::tally::Tally;
use pcap::stream::{Input, Source};
use timeline::Tap;

/// Counts the records of a source that was opened, the capture of a tap, to its end.
pub(crate) fn read_records<R: Input>(source: &mut Source<R>, tap: Tap) -> Result<Tally, SurveyFault>
    requires open { IsOpen source.old.standing }
    requires most { most_left source.old < 2 ^ 64 }
    ensures told { (text : List ℕ) → IsReading text [] source.old → ReadsAll tap text source.new.standing result }
    ensures reads { ReadsWith source.old.supply source.new.supply result }
{
    let mut tally = Tally::none();
    'records: loop {
        if let Err(fault) = source.fill() {
            let number = tally.records + 1;
            return Err(source_fault(number, fault));
        }
        let Some(next) = source.head() else {
            return Ok(tally);
        };
        tally.add(&next, tap);
    }
}
