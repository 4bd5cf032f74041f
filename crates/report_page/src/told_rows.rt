//! The rows of talks and of entries of tables.
ghost use Rattle.std.specs.Prelude.{◌≡◌, Some};
ghost use Rattle.report_page.specs.Told.{entry_row, numeral_cell, talk_row, word_at, word_cell};

use crate::escaped::Escaped;
use line_words::{behind_word, first_word};
use std::fmt;

/// The word of a line at a place, from 0; none where it has fewer.
#[tactic(auto, unfolding(crate::specs::Told::word_at))]
pub(crate) fn word_at(place: u8, line: &[u8]) -> &[u8]
    ensures { result.now ≡ word_at place line.now }
{
    let mut rest = line;
    for _ in 0..place {
        rest = behind_word(rest);
    }
    let (word, _) = first_word(rest);
    word
}

/// The cell of a word.
#[derive(Clone, Copy)]
struct WordCell<'a> {
    place: u8,
    line: &'a [u8],
}

impl<'a> fmt::Display for WordCell<'a> {
    ghost output = { λ cell. Some (word_cell cell.place cell.line.now) };

    #[tactic(auto, unfolding(crate::specs::Told::word_cell))]
    fn fmt<W: fmt::Write>(&self, f: &mut fmt::Formatter<W>) -> fmt::Result {
        let word = Escaped(word_at(self.place, self.line));
        write!(f, "<td>{word}</td>")
    }
}

/// The cell of a word that is a number.
#[derive(Clone, Copy)]
struct NumeralCell<'a> {
    place: u8,
    line: &'a [u8],
}

impl<'a> fmt::Display for NumeralCell<'a> {
    ghost output = { λ cell. Some (numeral_cell cell.place cell.line.now) };

    #[tactic(auto, unfolding(crate::specs::Told::numeral_cell))]
    fn fmt<W: fmt::Write>(&self, f: &mut fmt::Formatter<W>) -> fmt::Result {
        let numeral = Escaped(word_at(self.place, self.line));
        write!(f, "<td class=\"n\">{numeral}</td>")
    }
}

/// The row of a talk.
#[derive(Clone, Copy)]
pub(crate) struct TalkRow<'a>(pub &'a [u8]);

impl<'a> fmt::Display for TalkRow<'a> {
    ghost output = { λ row. Some (talk_row row.0.now) };

    #[tactic(auto, unfolding(crate::specs::Told::talk_row))]
    fn fmt<W: fmt::Write>(&self, f: &mut fmt::Formatter<W>) -> fmt::Result {
        let line = self.0;
        let segment = WordCell { place: 1, line };
        let source = WordCell { place: 2, line };
        let from = WordCell { place: 3, line };
        let destination = WordCell { place: 5, line };
        let to = WordCell { place: 6, line };
        let frames = NumeralCell { place: 7, line };
        let octets = NumeralCell { place: 8, line };
        let first = NumeralCell { place: 10, line };
        let last = NumeralCell { place: 12, line };
        write!(
            f,
            "<tr>{segment}{source}{from}{destination}{to}{frames}{octets}{first}{last}</tr>\n"
        )
    }
}

/// The row of an entry of a table.
#[derive(Clone, Copy)]
pub(crate) struct EntryRow<'a>(pub &'a [u8]);

impl<'a> fmt::Display for EntryRow<'a> {
    ghost output = { λ row. Some (entry_row row.0.now) };

    #[tactic(auto, unfolding(crate::specs::Told::entry_row))]
    fn fmt<W: fmt::Write>(&self, f: &mut fmt::Formatter<W>) -> fmt::Result {
        let line = self.0;
        let segment = WordCell { place: 1, line };
        let address = WordCell { place: 2, line };
        let place = WordCell { place: 3, line };
        let kept = WordCell { place: 4, line };
        let moment = NumeralCell { place: 5, line };
        let age = NumeralCell { place: 7, line };
        write!(f, "<tr>{segment}{address}{place}{kept}{moment}{age}</tr>\n")
    }
}
