//! Lines and columns.
ghost use Rattle.std.specs.Prelude.{◌≡◌, take};
ghost use Rattle.text_advice.specs.Place.{place_in, place_behind};
ghost use Rattle.text_advice.specs.Search.{line_of};

use crate::block::Line;
use crate::line::past_blanks;

/// A place of a text: its line, and its column in octets, both from 1.
#[derive(Clone, Copy)]
pub(crate) struct Place {
    pub(crate) line: usize,
    pub(crate) column: usize,
}

/// Where a line begins behind its blanks.
pub(crate) fn place_in(line: Line) -> Place
    ensures { result ≡ place_in (line_of line.entry) }
{
    let blanks = line.text.len() - past_blanks(line.text).len();
    Place {
        line: line.number,
        column: blanks + 1,
    }
}

/// The place behind so many octets of a text, and at its end behind all of them.
pub(crate) fn place_behind(text: &[u8], count: usize) -> Place
    ensures { result ≡ place_behind 1 1 (take count text.now) }
{
    let front = if count < text.len() {
        &text[..count]
    } else {
        text
    };
    let mut line: usize = 1;
    let mut column: usize = 1;
    for c in front {
        if *c == b'\n' {
            line += 1;
            column = 1;
        } else {
            column += 1;
        }
    }
    Place { line, column }
}
