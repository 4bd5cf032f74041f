//! The outcomes at the end of a line.
ghost use Rattle.std.specs.Prelude.{◌≡◌, ◌∷◌, position, IsTrue};
ghost use Rattle.std.specs.List.{list_all};
ghost use Rattle.serde_json.specs.Data.{array};
ghost use Rattle.serde_json.specs.Written.{compact_text};
ghost use Rattle.json_lines.specs.Outcomes.{behind_mark, is_mark, is_outcome, mark_in, place_in, words};
ghost use Rattle.json_lines.specs.Objects.{outcome_data, outcomes_data};
ghost use Rattle.json_lines.specs.Puts.{Puts, listed, sent_text, unsent_text};

use crate::cut::cut_first;
use crate::put::{put_octet, put_quoted, put_text};
use line_words::number_of;
use std::alloc::AllocError;

/// Whether each word of a text is an outcome.
pub(crate) fn are_outcomes(text: &[u8]) -> bool
    ensures { result ≡ list_all is_outcome (words text.now) }
{
    let mut rest = text;
    while let Some((word, behind)) = cut_first(b' ', rest) {
        if !is_outcome(word) {
            return false;
        }
        rest = behind;
    }
    is_outcome(rest)
}

/// What stands before the first `=` or `!` of a word, that mark, and what stands behind it; 0 where it has none.
fn parts(word: &[u8]) -> (&[u8], u8, &[u8])
    ensures place { result.0.now ≡ place_in word.now }
    ensures mark { result.1 ≡ mark_in word.now }
    ensures behind { result.2.now ≡ behind_mark word.now }
{
    match mark_place(word) {
        Some(at) => (&word[..at], word[at], &word[at + 1..]),
        None => (word, 0, &[]),
    }
}

/// Where the first `=` or `!` of a word is.
#[inline]
fn mark_place(word: &[u8]) -> Option<usize>
    ensures { result ≡ position is_mark word.now }
{
    word.iter()
        .position(|octet| *octet == b'=' || *octet == b'!')
}

/// Whether a word is an outcome.
fn is_outcome(word: &[u8]) -> bool
    ensures { result ≡ is_outcome word.now }
{
    let (_, mark, behind) = parts(word);
    if mark == b'=' {
        number_of(behind).is_some()
    } else {
        mark == b'!'
    }
}

/// Puts the outcomes that a text has as its words.
pub(crate) fn put_outcomes(text: &[u8], out: &mut Vec<u8>) -> Result<(), AllocError>
    requires { IsTrue (list_all is_outcome (words text.now)) }
    ensures { Puts result out.old.items out.new.items (compact_text (array (outcomes_data (words text.now)))) }
{
    put_list(text, out)?;
    put_octet(b']', out)
}

/// Puts a list that isn't closed yet: the outcomes that a text has as its words.
fn put_list(text: &[u8], out: &mut Vec<u8>) -> Result<(), AllocError>
    requires { IsTrue (list_all is_outcome (words text.now)) }
    ensures { Puts result out.old.items out.new.items (listed 91 (words text.now)) }
{
    let mut mark = b'[';
    let mut rest = text;
    while let Some((word, behind)) = cut_first(b' ', rest) {
        put_next(mark, word, out)?;
        mark = b',';
        rest = behind;
    }
    put_next(mark, rest, out)
}

/// Puts an outcome behind a mark.
fn put_next(mark: u8, word: &[u8], out: &mut Vec<u8>) -> Result<(), AllocError>
    requires { IsTrue (is_outcome word.now) }
    ensures { Puts result out.old.items out.new.items (mark ∷ compact_text (outcome_data word.now)) }
{
    put_octet(mark, out)?;
    put_outcome(word, out)
}

/// Puts an outcome.
fn put_outcome(word: &[u8], out: &mut Vec<u8>) -> Result<(), AllocError>
    requires { IsTrue (is_outcome word.now) }
    ensures { Puts result out.old.items out.new.items (compact_text (outcome_data word.now)) }
{
    let (place, mark, behind) = parts(word);
    if mark == b'=' {
        put_sent(place, behind, out)
    } else {
        put_unsent(place, behind, out)
    }
}

/// Puts that so many octets left at a place.
fn put_sent(place: &[u8], length: &[u8], out: &mut Vec<u8>) -> Result<(), AllocError>
    ensures { Puts result out.old.items out.new.items (sent_text place.now length.now) }
{
    put_text(b"{\"octets\":", out)?;
    put_text(length, out)?;
    put_text(b",\"place\":", out)?;
    put_quoted(place, out)?;
    put_octet(b'}', out)
}

/// Puts why nothing left at a place.
fn put_unsent(place: &[u8], fault: &[u8], out: &mut Vec<u8>) -> Result<(), AllocError>
    ensures { Puts result out.old.items out.new.items (unsent_text place.now fault.now) }
{
    put_text(b"{\"fault\":", out)?;
    put_quoted(fault, out)?;
    put_text(b",\"place\":", out)?;
    put_quoted(place, out)?;
    put_octet(b'}', out)
}
