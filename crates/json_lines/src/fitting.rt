//! Whether a line is of a form.
ghost use Rattle.std.specs.Prelude.{◌≡◌, map, option_copied};
ghost use Rattle.json_lines.specs.Outcomes.{words};
ghost use Rattle.json_lines.specs.Forms.{end_fits, fits, form_of, word_fits, words_fit};
ghost use Rattle.json_lines.specs.Puts.{words_behind};

use crate::forms::{End, Form, Word};
use crate::line::{Line, MOST_WORDS, Piece};
use crate::outcomes::are_outcomes;
use line_words::number_of;

/// The first form that a line is of.
pub(crate) fn form_of<'f>(forms: &'f [Form], line: &Line<'_>) -> Option<&'f Form>
    ensures { option_copied result ≡ form_of forms.entry.now (words line.now) }
{
    let mut rest = forms;
    while let [form, behind @ ..] = rest {
        if fits(form, line) {
            return Some(form);
        }
        rest = behind;
    }
    None
}

/// Whether a line is of a form.
fn fits(form: &Form, line: &Line<'_>) -> bool
    ensures { result ≡ fits form.now (words line.now) }
{
    if form.words.len() > MOST_WORDS {
        return false;
    }
    words_fit(form.words, line.found()) && end_fits(form.end, line.behind(form.words.len()))
}

/// Whether the first words of a line are as a form has them.
fn words_fit(wanted: &[Word], found: &[Piece<'_>]) -> bool
    ensures { result ≡ words_fit wanted.now (map (λ p. p.word.now) found.now) }
{
    let mut pieces = found;
    let mut rest = wanted;
    while let [word, others @ ..] = rest {
        let [piece, behind @ ..] = pieces else {
            return false;
        };
        if !word_fits(*word, piece.word) {
            return false;
        }
        rest = others;
        pieces = behind;
    }
    true
}

/// Whether a word is as a form has it.
fn word_fits(wanted: Word, word: &[u8]) -> bool
    ensures { result ≡ word_fits wanted word.now }
{
    match wanted {
        Word::Is(text) => text.as_bytes() == word,
        Word::Number => number_of(word).is_some(),
        Word::NumberOrNothing => number_of(word).is_some() || word == b"-".as_slice(),
        Word::Text => true,
        Word::NumberBefore(mark) => match word {
            [front @ .., last] => *last == mark && number_of(front).is_some(),
            [] => false,
        },
        Word::TextBefore(mark) => match word {
            [_, ..] => word[word.len() - 1] == mark,
            [] => false,
        },
    }
}

/// Whether what stands behind those words, if there is a word more, is as a form has it.
fn end_fits(end: End, behind: Option<&[u8]>) -> bool
    ensures { result ≡ end_fits end (words_behind behind.entry) }
{
    let Some(text) = behind else {
        return matches!(end, End::Here);
    };
    match end {
        End::Here => false,
        End::Rest => true,
        End::Outcomes => are_outcomes(text),
    }
}
