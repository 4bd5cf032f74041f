//! The parts of a line.
ghost use Rattle.std.specs.Prelude.{◌≡◌, ◌<◌, ◌≤◌, ◌+◌, ◌==◌, Some, count_by, drop, length};
ghost use Rattle.line_words.specs.Words.{behind};
ghost use Rattle.part_lines.specs.Facts.{event_of, facts_of, told_in};
ghost use Rattle.part_lines.specs.Parts.{facts_by, told_by};

use crate::fault::LineFault;
use crate::places::has_places;
use crate::words::{result_at, word_end};
use line_words::number_of;

/// What a decision line tells of its event, and where in the line.
#[derive(Clone, Copy, Debug)]
pub enum LineParts {
    /// The event of this number, from 1, and where the line's result begins, whose words tell where it was sent.
    Event(u64, usize),
    /// A capture that ends with a cut rest: no event, and nothing was sent.
    Cut,
}

/// Reads a decision line as [`read_line`](crate::read_line) does, and says where its result begins: from there on
/// [`Places::behind`](crate::Places::behind) hands out its places, without reading the line again.
#[tactic(auto, unfolding(crate::specs::Facts::facts_of))]
pub fn find_parts(text: &[u8]) -> Result<LineParts, LineFault>
    ensures { facts_by text.now result ≡ facts_of text.now }
{
    match text {
        [line @ .., b'\n'] => read_fields(line),
        _ => Err(LineFault::NoEnd),
    }
}

/// Reads a line without its end.
fn read_fields(line: &[u8]) -> Result<LineParts, LineFault>
    ensures { told_by line.now result ≡ told_in line.now }
{
    let end = word_end(line, 0);
    let first = &line[..end];
    if first == b"cut".as_slice() {
        return Ok(LineParts::Cut);
    }
    match number_of(first) {
        Some(number) => read_event(number, line, end),
        None => Err(LineFault::Number),
    }
}

/// Reads the line of the event of this number, whose first word ends there.
fn read_event(number: u64, line: &[u8], end: usize) -> Result<LineParts, LineFault>
    requires high { end ≤ length line.now }
    requires behind { behind line.now ≡ drop (end + 1) line.now }
    requires last { end ≡ length line.now → count_by (λ c. c == 32) line.now ≡ 0 }
    requires inner { end < length line.now
        → count_by (λ c. c == 32) line.now ≡ count_by (λ c. c == 32) (drop (end + 1) line.now) + 1 }
    ensures { told_by line.now result ≡ event_of line.now (Some number) }
{
    let Some(at) = result_at(line, end) else {
        return Err(LineFault::Fields);
    };
    if !has_places(line, at) {
        return Err(LineFault::Place);
    }
    Ok(LineParts::Event(number, at))
}
