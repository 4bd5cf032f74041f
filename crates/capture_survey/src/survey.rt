//! What is in a capture.
ghost use Rattle.std.specs.Prelude.{◌≡◌, ◌≤◌, ◌<◌, ◌^◌, ℕ, List, Some, IfOk};
ghost use Rattle.pcap.specs.Source.{New, most_left};
ghost use Rattle.capture_survey.specs.Survey.{Begins, Gives, IsOpen, ReadsWith, surveyed};

use crate::fault::{SurveyFault, source_fault};
use crate::read::read_records;
use crate::tally::Tally;
use pcap::stream::{Input, Source};
use pcap::text::Style;
use timeline::Tap;

/// What is in a capture.
#[derive(Clone, Copy)]
pub struct Survey {
    /// How it writes its numbers.
    pub style: Style,
    /// What is counted of its records.
    pub tally: Tally,
    /// Whether it ends in the middle of a record, which isn't counted.
    pub is_cut: bool,
}

/// What is in the capture of a tap. It reads the capture to its end, record by record.
///
/// At most 2^64 - 1 octets may come, counted as 262,144 by each read that the source may make: so all counts fit.
///
/// The faults are those that a run stops at. `Read` comes only where a read failed, or one more was needed than the source
/// may make.
pub fn survey_capture<R: Input>(source: &mut Source<R>, tap: Tap) -> Result<Survey, SurveyFault>
    requires new { source.old.standing ≡ New }
    requires most { most_left source.old < 2 ^ 64 }
    ensures told { (text : List ℕ) → source.old.supply.rest ≡ Some text → Gives result (surveyed tap text) }
    ensures reads { ReadsWith source.old.supply source.new.supply result }
{
    let style = match begin(source) {
        Ok(style) => style,
        Err(fault) => return Err(fault),
    };
    match read_records(source, tap) {
        Ok(tally) => Ok(Survey {
            style,
            tally,
            is_cut: source.is_cut(),
        }),
        Err(fault) => Err(fault),
    }
}

/// Opens a source, and says how its capture writes its numbers.
fn begin<R: Input>(source: &mut Source<R>) -> Result<Style, SurveyFault>
    requires new { source.old.standing ≡ New }
    ensures told { (text : List ℕ) → source.old.supply.rest ≡ Some text → Begins text source.new result }
    ensures open { IfOk result (λ _. IsOpen source.new.standing) }
    ensures reads { ReadsWith source.old.supply source.new.supply result }
    ensures most { most_left source.new ≤ most_left source.old }
{
    if let Err(fault) = source.open() {
        return Err(source_fault(1, fault));
    }
    match source.style() {
        Some(style) => Ok(style),
        None => unreachable!(),
    }
}
