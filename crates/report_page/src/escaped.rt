//! Texts of others.
ghost use Rattle.std.specs.Prelude.{Some};
ghost use Rattle.report_page.specs.Escaped.{escaped, escaped_octet};

use std::fmt;

/// A text of others, as HTML says it: `&`, `<`, `>` and quotes by their entities, and octets that are no printable characters of
/// ASCII as U+FFFD. So nothing of it is markup, within an attribute neither.
#[derive(Clone, Copy)]
pub(crate) struct Escaped<'a>(pub &'a [u8]);

impl<'a> fmt::Display for Escaped<'a> {
    ghost output = { λ text. Some (escaped text.0.now) };

    fn fmt<W: fmt::Write>(&self, f: &mut fmt::Formatter<W>) -> fmt::Result {
        for octet in self.0 {
            let octet = EscapedOctet(*octet);
            write!(f, "{octet}")?;
        }
        Ok(())
    }
}

/// An octet of such a text.
#[derive(Clone, Copy)]
pub(crate) struct EscapedOctet(pub u8);

impl fmt::Display for EscapedOctet {
    ghost output = { λ octet. Some (escaped_octet octet.0) };

    #[tactic(auto, unfolding(crate::specs::Escaped::escaped_octet))]
    fn fmt<W: fmt::Write>(&self, f: &mut fmt::Formatter<W>) -> fmt::Result {
        match self.0 {
            b'&' => write!(f, "&amp;"),
            b'<' => write!(f, "&lt;"),
            b'>' => write!(f, "&gt;"),
            b'"' => write!(f, "&quot;"),
            b'\'' => write!(f, "&#39;"),
            b' '..=b'~' => {
                let shown = self.0 as char;
                write!(f, "{shown}")
            }
            _ => write!(f, "\u{FFFD}"),
        }
    }
}
