//! What a line tells.
ghost use Rattle.std.specs.Prelude.{◌≡◌};
ghost use Rattle.part_lines.specs.Facts.{facts_of};

use crate::fault::LineFault;
use crate::parts::{LineParts, find_parts};
use crate::places::Places;

/// What a decision line tells of its event.
#[derive(Debug, Drop)]
pub enum LineFacts<'a> {
    /// The event of this number, from 1, and the places where it was sent.
    Event(u64, Places<'a>),
    /// A capture that ends with a cut rest: no event, and nothing was sent.
    Cut,
}

/// Reads a decision line, up to and with its line feed: `E M SRC K SEG RESULT`, or `cut SRC K`. Of the fields between the
/// number and the result only the spaces are looked at, and of the result only the words with a `=`.
///
/// Errors: `NoEnd` without a line feed at the end, else `Number` where the first word is no number, else `Fields` for
/// fewer than six fields, else `Place` where a word with a `=` has no place before that.
pub fn read_line(text: &[u8]) -> Result<LineFacts<'_>, LineFault>
    ensures { result ≡ facts_of text.now }
{
    match find_parts(text) {
        Ok(LineParts::Event(number, at)) => {
            Ok(LineFacts::Event(number, Places::behind(text, at)))
        }
        Ok(LineParts::Cut) => Ok(LineFacts::Cut),
        Err(fault) => Err(fault),
    }
}
