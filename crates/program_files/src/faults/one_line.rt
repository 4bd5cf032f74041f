//! Texts on one line.
use std::fmt;

/// A text that prints on one line: each control character as Rust writes it, as `\n`, and all others as they are.
#[derive(Clone, Copy, Debug)]
pub struct OneLine<'a>(pub &'a str);

impl<'a> fmt::Display for OneLine<'a> {
    fn fmt<W: fmt::Write>(&self, f: &mut fmt::Formatter<W>) -> fmt::Result {
        for letter in self.0.chars() {
            if letter.is_control() {
                let escaped = letter.escape_default();
                write!(f, "{escaped}")?;
            } else {
                f.write_char(letter)?;
            }
        }
        Ok(())
    }
}
