//! Reading decision lines.
ghost use Rattle.std.specs.Prelude.{◌≡◌};
ghost use Rattle.report_counts.specs.Lines.{cut_of, event_of, line_of, number_in, segment_in, source_in, tap_in, without_end};

use crate::answer::read_result;
use crate::fault::LineFault;
use crate::line::{EventLine, ReportLine};
use line_words::{first_word, number_of};
use timeline::{Source, Tap};

/// Reads a decision line, with or without its line feed: `E M SRC K SEG RESULT`, or `cut SRC K`. Of a drop and of a refused change
/// the number counts, and what stands behind it isn't looked at; a word between two spaces of outcomes may be empty.
///
/// Errors: the first of the line's fields that is none, from the front on.
pub fn read_line(line: &[u8]) -> Result<ReportLine<'_>, LineFault>
    ensures { result ≡ line_of line.now }
{
    let (first, behind) = first_word(without_end(line));
    if first == b"cut".as_slice() {
        return read_cut(behind);
    }
    match read_number(first) {
        Ok(event) => read_event(event, behind),
        Err(fault) => Err(fault),
    }
}

/// A line without the line feed at its end.
fn without_end(line: &[u8]) -> &[u8]
    ensures { result.now ≡ without_end line.now }
{
    match line {
        [text @ .., b'\n'] => text,
        _ => line,
    }
}

/// Reads what stands behind the first word of the line of a cut capture.
fn read_cut<'a>(text: &[u8]) -> Result<ReportLine<'a>, LineFault>
    ensures { result ≡ cut_of text.now }
{
    let (tap, records) = first_word(text);
    let tap = read_tap(tap)?;
    let records = read_number(records)?;
    Ok(ReportLine::Cut { tap, records })
}

/// Reads what stands behind the number of an event.
fn read_event(event: u64, text: &[u8]) -> Result<ReportLine<'_>, LineFault>
    ensures { result ≡ event_of event text.now }
{
    let (moment, text) = first_word(text);
    let (source, text) = first_word(text);
    let (number, text) = first_word(text);
    let (segment, text) = first_word(text);
    let moment = read_number(moment)?;
    let source = read_source(source)?;
    let number = read_number(number)?;
    let segment = read_segment(segment)?;
    match read_result(text) {
        Ok(result) => Ok(ReportLine::Event(EventLine {
            event,
            moment,
            source,
            number,
            segment,
            result,
        })),
        Err(fault) => Err(fault),
    }
}

/// Reads a number.
pub(crate) fn read_number(word: &[u8]) -> Result<u64, LineFault>
    ensures { result ≡ number_in word.now }
{
    if word.is_empty() {
        return Err(LineFault::Fields);
    }
    match number_of(word) {
        Some(number) => Ok(number),
        None => Err(LineFault::Number),
    }
}

/// Reads where an event came from.
fn read_source(word: &[u8]) -> Result<Source, LineFault>
    ensures { result ≡ source_in word.now }
{
    if word == b"c".as_slice() {
        return Ok(Source::Changes);
    }
    match read_tap(word) {
        Ok(tap) => Ok(Source::Tap(tap)),
        Err(fault) => Err(fault),
    }
}

/// Reads where a capture was taken.
fn read_tap(word: &[u8]) -> Result<Tap, LineFault>
    ensures { result ≡ tap_in word.now }
{
    match word {
        [] => Err(LineFault::Fields),
        [b'u'] => Ok(Tap::Underlay),
        [b'p', digits @ ..] => match number_of(digits) {
            Some(port) if 0 < port && port < 256 => Ok(Tap::Port(port as u8)),
            _ => Err(LineFault::Place),
        },
        _ => Err(LineFault::Place),
    }
}

/// Reads the VID of a segment, or that there is none.
fn read_segment(word: &[u8]) -> Result<Option<u16>, LineFault>
    ensures { result ≡ segment_in word.now }
{
    if word == b"-".as_slice() {
        return Ok(None);
    }
    let vid = read_number(word)?;
    if 0 < vid && vid < 4095 {
        Ok(Some(vid as u16))
    } else {
        Err(LineFault::Number)
    }
}
