//! Lines of a text, and the words and names in them.
ghost use Rattle.std.specs.Prelude.{◌≡◌, ◌≤◌, length, option_map};
ghost use Rattle.text_advice.specs.Line.{is_mark, is_blank, is_letter, past_blanks, is_bare, bare, word, dotted, is_name};
ghost use Rattle.text_advice.specs.Line.{header_name, is_text, opens, is_header, child, child_on, value, is_key_line};

use config_text::cut;

/// Whether an octet is one of a byte order mark.
fn is_mark(c: u8) -> bool
    ensures { result ≡ is_mark c }
{
    c == 0xEF || c == 0xBB || c == 0xBF
}

/// Whether an octet is passed over in front of what counts.
fn is_blank(c: u8) -> bool
    ensures { result ≡ is_blank c }
{
    c == b' ' || c == b'\t' || c == b'\r' || is_mark(c)
}

fn is_letter(c: u8) -> bool
    ensures { result ≡ is_letter c }
{
    (b'a' <= c && c <= b'z') || (b'A' <= c && c <= b'Z')
}

/// A text without the blanks in front.
pub(crate) fn past_blanks(text: &[u8]) -> &[u8]
    ensures value { result.now ≡ past_blanks text.now }
    ensures shorter { length result.now ≤ length text.now }
{
    for (i, c) in text.iter().enumerate() {
        if !is_blank(*c) {
            return &text[i..];
        }
    }
    &[]
}

/// Whether a bare key may have the character.
fn is_bare(c: u8) -> bool
    ensures { result ≡ is_bare c }
{
    is_letter(c) || (b'0' <= c && c <= b'9') || c == b'_' || c == b'-'
}

/// The bare key with which a text begins.
pub(crate) fn bare(text: &[u8]) -> &[u8]
    ensures { result.now ≡ bare text.now }
{
    for (i, c) in text.iter().enumerate() {
        if !is_bare(*c) {
            return &text[..i];
        }
    }
    text
}

/// The bare key with which a line begins; of a dotted key the first part.
pub(crate) fn word(line: &[u8]) -> &[u8]
    ensures { result.now ≡ word line.now }
{
    bare(past_blanks(line))
}

/// The dotted bare keys with which a text begins.
fn dotted(text: &[u8]) -> &[u8]
    ensures { result.now ≡ dotted text.now }
{
    for (i, c) in text.iter().enumerate() {
        if !(is_bare(*c) || *c == b'.') {
            return &text[..i];
        }
    }
    text
}

/// Whether a text begins as a name does, with a letter.
fn is_name(text: &[u8]) -> bool
    ensures { result ≡ is_name text.now }
{
    match text {
        [c, ..] => is_letter(*c),
        [] => false,
    }
}

/// The name in the brackets of a header, `[name]` or `[[name]]`, where the line is one.
pub(crate) fn header_name(line: &[u8]) -> Option<&[u8]>
    ensures { option_map (λ n. n.now) result ≡ header_name line.now }
{
    let behind = match past_blanks(line) {
        [b'[', b'[', behind @ ..] => behind,
        [b'[', behind @ ..] => behind,
        _ => return None,
    };
    let name = dotted(past_blanks(behind));
    if is_name(name) { Some(name) } else { None }
}

/// Whether what may be there is this text.
pub(crate) fn is_text(text: &[u8], found: Option<&[u8]>) -> bool
    ensures { result ≡ is_text text.now (option_map (λ f. f.now) found.entry) }
{
    match found {
        Some(found) => text == found,
        None => false,
    }
}

/// Whether the line is the header of a table of this name.
pub(crate) fn opens(name: &[u8], line: &[u8]) -> bool
    ensures { result ≡ opens name.now line.now }
{
    is_text(name, header_name(line))
}

/// Whether the line is the header of any table.
pub(crate) fn is_header(line: &[u8]) -> bool
    ensures { result ≡ is_header line.now }
{
    header_name(line).is_some()
}

/// Of a dotted name the part behind that of the table around it, where it is in that table.
fn child<'a>(around: &[u8], name: &'a [u8]) -> Option<&'a [u8]>
    ensures { option_map (λ n. n.now) result ≡ child around.now name.now }
{
    if around.is_empty() {
        return Some(bare(name));
    }
    match name.strip_prefix(around) {
        Some([b'.', part @ ..]) => Some(bare(part)),
        _ => None,
    }
}

/// The name that a header's table has in the table around it.
pub(crate) fn child_on<'a>(around: &[u8], line: &'a [u8]) -> Option<&'a [u8]>
    ensures { option_map (λ n. n.now) result ≡ child_on around.now line.now }
{
    match header_name(line) {
        Some(name) => child(around, name),
        None => None,
    }
}

/// What stands behind the line's equals sign, without the blanks in front.
pub(crate) fn value(line: &[u8]) -> Option<&[u8]>
    ensures { option_map (λ v. v.now) result ≡ value line.now }
{
    match cut(b'=', line) {
        Some((_, behind)) => Some(past_blanks(behind)),
        None => None,
    }
}

/// Whether the line gives a key a value.
pub(crate) fn is_key_line(line: &[u8]) -> bool
    ensures { result ≡ is_key_line line.now }
{
    is_name(word(line)) && value(line).is_some()
}
