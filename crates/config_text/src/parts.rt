//! Texts of parts with a separator between them.
ghost use Rattle.std.specs.Prelude.{◌≡◌, ◌<◌, IfSome, List, ℕ, Option, length, option_map};
ghost use Rattle.config_text.specs.Address.{cut, joined};

use arrayvec::ArrayVec;

/// What one part of a text writes.
pub(crate) trait Part {
    type Out: Default + Drop;

    /// What a part writes, or nothing.
    ghost reads: { List ℕ → Option Self.Out };

    fn read(text: &[u8]) -> Option<Self::Out>
        ensures { result ≡ reads text.now };
}

/// What stands before the first separator, and what behind it. None: the text has no separator.
pub fn cut(separator: u8, text: &[u8]) -> Option<(&[u8], &[u8])>
    ensures value { option_map (λ h. (h.0.now, h.1.now)) result ≡ cut separator text.now }
    ensures shorter { IfSome result (λ h. length h.1.now < length text.now) }
{
    let at = text.iter().position(|c| *c == separator)?;
    Some((&text[..at], &text[at + 1..]))
}

/// At most eight parts, with a separator between them.
pub(crate) fn joined<P: Part>(separator: u8, text: &[u8]) -> Option<ArrayVec<P::Out, 8>>
    ensures { option_map (λ v. v.items) result ≡ joined P.reads separator 8 text.now }
{
    let mut parts = ArrayVec::new();
    let mut rest = text;
    for _ in 0..8u8 {
        match cut(separator, rest) {
            Some((front, back)) => {
                parts.push(P::read(front)?);
                rest = back;
            }
            None => {
                parts.push(P::read(rest)?);
                return Some(parts);
            }
        }
    }
    None
}
