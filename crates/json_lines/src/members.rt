//! The members of an object by the form of its line.
ghost use Rattle.std.specs.Prelude.{◌≡◌, [], IsTrue, get_or, slice_get};
ghost use Rattle.serde_json.specs.Data.{array, string};
ghost use Rattle.serde_json.specs.Written.{compact_text};
ghost use Rattle.line_words.specs.Numbers.{number_of};
ghost use Rattle.json_lines.specs.Outcomes.{joined, words};
ghost use Rattle.json_lines.specs.Forms.{end_fits, fits, without_last, word_fits};
ghost use Rattle.json_lines.specs.Objects.{members_by, number_data, outcomes_behind, outcomes_data, told_word, value_of, word_data};
ghost use Rattle.json_lines.specs.Puts.{Puts, begun, member_text, words_behind};

use crate::forms::{End, Form, Member, Told, Word};
use crate::line::Line;
use crate::outcomes::put_outcomes;
use crate::put::{put_octet, put_quoted, put_text};
use line_words::number_of;
use std::alloc::AllocError;

/// Puts an object that isn't closed yet: the members that a form has, of a line that is of it.
pub(crate) fn put_members(form: &Form, line: &Line<'_>, out: &mut Vec<u8>) -> Result<(), AllocError>
    requires { IsTrue (fits form.now (words line.now)) }
    ensures { Puts result out.old.items out.new.items (begun (members_by form.now (words line.now) form.now.members.now)) }
{
    let mut mark = b'{';
    let mut rest = form.members;
    if rest.is_empty() {
        return put_octet(b'{', out);
    }
    while let [member, behind @ ..] = rest {
        put_member(mark, member, form, line, out)?;
        mark = b',';
        rest = behind;
    }
    Ok(())
}

/// Puts a member behind a mark.
fn put_member(
    mark: u8,
    member: &Member,
    form: &Form,
    line: &Line<'_>,
    out: &mut Vec<u8>,
) -> Result<(), AllocError>
    requires { IsTrue (fits form.now (words line.now)) }
    ensures { Puts result out.old.items out.new.items
        (member_text mark member.now.0.now (value_of form.now (words line.now) member.now.1)) }
{
    put_octet(mark, out)?;
    put_quoted(member.0.as_bytes(), out)?;
    put_octet(b':', out)?;
    put_value(form, line, member.1, out)
}

/// Puts the value of a member.
fn put_value(form: &Form, line: &Line<'_>, told: Told, out: &mut Vec<u8>) -> Result<(), AllocError>
    requires { IsTrue (fits form.now (words line.now)) }
    ensures { Puts result out.old.items out.new.items (compact_text (value_of form.now (words line.now) told)) }
{
    match told {
        Told::Word(at) => put_told_word(form, line, at, out),
        Told::Fixed(text) => put_quoted(text.as_bytes(), out),
        Told::Outcomes => put_outcomes_of(form.end, line.behind(form.words.len()), out),
        Told::Rest => put_rest(line.behind(form.words.len()), out),
    }
}

/// Puts the value of the word that a form has there.
fn put_told_word(
    form: &Form,
    line: &Line<'_>,
    at: usize,
    out: &mut Vec<u8>,
) -> Result<(), AllocError>
    requires { IsTrue (fits form.now (words line.now)) }
    ensures { Puts result out.old.items out.new.items
        (compact_text (told_word (slice_get form.now.words.now at) (get_or (words line.now) at []))) }
{
    if at < form.words.len() {
        put_word(form.words[at], line.word(at), out)
    } else {
        put_quoted(&[], out)
    }
}

/// Puts the outcomes of a form that ends with them.
fn put_outcomes_of(end: End, behind: Option<&[u8]>, out: &mut Vec<u8>) -> Result<(), AllocError>
    requires { IsTrue (end_fits end (words_behind behind)) }
    ensures { Puts result out.old.items out.new.items
        (compact_text (array (outcomes_data (outcomes_behind end (words_behind behind.entry))))) }
{
    let Some(text) = behind else {
        return put_text(b"[]", out);
    };
    match end {
        End::Here | End::Rest => put_text(b"[]", out),
        End::Outcomes => put_outcomes(text, out),
    }
}

/// Puts what stands behind the words of a form as one text.
fn put_rest(behind: Option<&[u8]>, out: &mut Vec<u8>) -> Result<(), AllocError>
    ensures { Puts result out.old.items out.new.items (compact_text (string (joined (words_behind behind.entry)))) }
{
    match behind {
        Some(text) => put_quoted(text, out),
        None => put_quoted(&[], out),
    }
}

/// Puts the value of a word that is as a form has it.
fn put_word(kind: Word, word: &[u8], out: &mut Vec<u8>) -> Result<(), AllocError>
    requires { IsTrue (word_fits kind word.now) }
    ensures { Puts result out.old.items out.new.items (compact_text (word_data kind word.now)) }
{
    match kind {
        Word::Is(_) | Word::Text => put_quoted(word, out),
        Word::Number => put_text(word, out),
        Word::NumberOrNothing => put_number_or_nothing(word, out),
        Word::NumberBefore(_) => put_text(without_last(word), out),
        Word::TextBefore(_) => put_quoted(without_last(word), out),
    }
}

/// Puts a number, or `null` where there is none.
fn put_number_or_nothing(word: &[u8], out: &mut Vec<u8>) -> Result<(), AllocError>
    ensures { Puts result out.old.items out.new.items (compact_text (number_data (number_of word.now))) }
{
    match number_of(word) {
        Some(_) => put_text(word, out),
        None => put_text(b"null", out),
    }
}

/// A word without its last octet.
fn without_last(word: &[u8]) -> &[u8]
    ensures { result.now ≡ without_last word.now }
{
    match word {
        [front @ .., _] => front,
        [] => word,
    }
}
