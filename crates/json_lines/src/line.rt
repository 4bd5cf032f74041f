//! A line and where its words are.
ghost use Rattle.std.specs.Prelude.{◌≡◌, ◌<◌, [], drop, get_or, take, map};
ghost use Rattle.json_lines.specs.Outcomes.{words};
ghost use Rattle.json_lines.specs.Pieces.{piece_of, tails};
ghost use Rattle.json_lines.specs.Puts.{words_behind};

use crate::cut::cut_first;
use arrayvec::ArrayVec;
use std::marker::Model;

/// The most words that a form has.
pub(crate) const MOST_WORDS: usize = 18;

/// How many words of a line are found: those of a form, and one behind them.
const MOST_PIECES: usize = MOST_WORDS + 1;

/// A word, and what stands from there to the end of its line.
#[derive(Clone, Copy, Debug, Default)]
pub(crate) struct Piece<'a> {
    pub(crate) word: &'a [u8],
    from: &'a [u8],
}

/// A line without its end, whose first words are found; seen by contracts as the line.
#[derive(Drop)]
pub(crate) struct Line<'a> {
    line: &'a [u8],
    pieces: ArrayVec<Piece<'a>, MOST_PIECES>,
}

impl<'a> Model for Line<'a> {
    ghost use Rattle.std.specs.Prelude.{◌≡◌, ℕ, List, map, take};
    ghost use Rattle.json_lines.specs.Outcomes.{words};
    ghost use Rattle.json_lines.specs.Pieces.{piece_of, tails};

    ghost Value = { List ℕ };

    ghost view = { λ l. l.line.now };

    ghost invariant = { λ l. map piece_of l.pieces.items ≡ take 19 (tails (words l.line.now)) };
}

impl<'a> Line<'a> {
    /// Finds the words of a line.
    pub(crate) fn of(line: &'a [u8]) -> Line<'a>
        ensures { result ≡ line.entry.now }
    {
        let mut pieces = ArrayVec::new();
        let mut rest = line;
        while pieces.len() < MOST_PIECES {
            match cut_first(b' ', rest) {
                Some((word, behind)) => {
                    pieces.push(Piece { word, from: rest });
                    rest = behind;
                }
                None => {
                    pieces.push(Piece {
                        word: rest,
                        from: rest,
                    });
                    return Line { line, pieces };
                }
            }
        }
        Line { line, pieces }
    }

    /// The line itself.
    pub(crate) fn text(&self) -> &'a [u8]
        ensures { result.now ≡ self.now }
    {
        self.line
    }

    /// The words that were found.
    pub(crate) fn found(&self) -> &[Piece<'a>]
        ensures { map piece_of result.now ≡ take 19 (tails (words self.now)) }
    {
        self.pieces.as_slice()
    }

    /// The word of this place, from 0, or an empty one.
    pub(crate) fn word(&self, at: usize) -> &'a [u8]
        requires { at < 19 }
        ensures { result.now ≡ get_or (words self.now) at [] }
    {
        let pieces = self.found();
        if at < pieces.len() {
            pieces[at].word
        } else {
            &[]
        }
    }

    /// What stands behind so many words, if there is a word more.
    pub(crate) fn behind(&self, count: usize) -> Option<&'a [u8]>
        requires { count < 19 }
        ensures { words_behind result ≡ drop count (words self.now) }
    {
        let pieces = self.found();
        if count < pieces.len() {
            Some(pieces[count].from)
        } else {
            None
        }
    }
}
