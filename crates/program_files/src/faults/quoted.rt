//! Texts for a shell.
use std::fmt;

/// A text that prints as one word of a shell, which reads it as the text: as it is where no letter of it means more to a shell,
/// and else in quotes. One with control characters prints on one line, in the quotes that know escapes. Where it is a file's
/// name, it isn't taken for an option.
#[derive(Clone, Copy, Debug)]
pub struct Quoted<'a>(pub &'a str);

/// Whether a letter means itself to each shell.
fn is_plain(letter: char) -> bool {
    match letter {
        'a'..='z' | 'A'..='Z' | '0'..='9' | '_' | '.' | '/' | ':' | ',' | '+' | '-' | '@' | '%' =>
            true,
        _ => false,
    }
}

impl<'a> fmt::Display for Quoted<'a> {
    fn fmt<W: fmt::Write>(&self, f: &mut fmt::Formatter<W>) -> fmt::Result {
        let text = self.0;
        if text.starts_with('-') {
            f.write_str("./")?;
        }
        if !text.is_empty() && text.chars().all(is_plain) {
            return f.write_str(text);
        }
        if text.chars().any(|letter| letter.is_control()) {
            return write_escaped(text, f);
        }
        f.write_str("'")?;
        for letter in text.chars() {
            match letter {
                '\'' => f.write_str("'\\''")?,
                _ => f.write_char(letter)?,
            }
        }
        f.write_str("'")
    }
}

/// Writes a text in quotes with escapes: control characters by their octets in octal.
fn write_escaped<W: fmt::Write>(text: &str, f: &mut fmt::Formatter<W>) -> fmt::Result {
    f.write_str("$'")?;
    for letter in text.chars() {
        if letter.is_control() {
            let mut octets = [0; 4];
            for octet in letter.encode_utf8(&mut octets).as_bytes() {
                let octet = *octet;
                write!(f, "\\{octet:03o}")?;
            }
        } else {
            match letter {
                '\'' => f.write_str("\\'")?,
                '\\' => f.write_str("\\\\")?,
                _ => f.write_char(letter)?,
            }
        }
    }
    f.write_str("'")
}
