//! Reading results.
ghost use Rattle.std.specs.Prelude.{◌≡◌};
ghost use Rattle.report_counts.specs.Lines.{dropped_for, refused_for, result_in};

use crate::fault::LineFault;
use crate::line::Outcome;
use crate::outcomes::{Outcomes, are_outcomes};
use crate::read::read_number;
use line_words::first_word;

/// Reads the result of an event.
pub(crate) fn read_result(text: &[u8]) -> Result<Outcome<'_>, LineFault>
    ensures { result ≡ result_in text.now }
{
    if text.is_empty() {
        return Err(LineFault::Fields);
    }
    if text == b"done".as_slice() {
        return Ok(Outcome::Done);
    }
    let (first, behind) = first_word(text);
    if first == b"drop".as_slice() {
        return read_drop(behind);
    }
    if first == b"refused".as_slice() {
        return read_refused(behind);
    }
    if are_outcomes(text) {
        Ok(Outcome::Sent(Outcomes::of(text)))
    } else {
        Err(LineFault::Place)
    }
}

/// Reads what stands behind the word of a drop.
fn read_drop<'a>(text: &[u8]) -> Result<Outcome<'a>, LineFault>
    ensures { result ≡ dropped_for text.now }
{
    let (number, _) = first_word(text);
    let reason = read_number(number)?;
    if 0 < reason && reason < 41 {
        Ok(Outcome::Dropped {
            reason: reason as u8,
        })
    } else {
        Err(LineFault::Number)
    }
}

/// Reads what stands behind the word of a refused change.
fn read_refused<'a>(text: &[u8]) -> Result<Outcome<'a>, LineFault>
    ensures { result ≡ refused_for text.now }
{
    let (number, _) = first_word(text);
    let cause = read_number(number)?;
    if 0 < cause && cause < 256 {
        Ok(Outcome::Refused { cause: cause as u8 })
    } else {
        Err(LineFault::Number)
    }
}
