//! Texts of parts with a separator between them.
ghost use Rattle.std.specs.Prelude.{◌≡◌, map, IfOk};
ghost use Rattle.text_advice.specs.Split.{split};

use config_text::cut;
use std::alloc::{AllocError, Global};

/// All parts, of which there is one at least.
pub(crate) fn split(alloc: Global, separator: u8, text: &[u8]) -> Result<Vec<&[u8]>, AllocError>
    ensures { IfOk result (λ parts. map (λ p. p.now) parts.items ≡ split separator text.now) }
{
    let mut parts = Vec::new(alloc);
    let mut rest = text;
    while let Some((front, behind)) = cut(separator, rest) {
        parts.push(front)?;
        rest = behind;
    }
    parts.push(rest)?;
    Ok(parts)
}
