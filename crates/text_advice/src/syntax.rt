//! Where and why a text stops being TOML.
ghost use Rattle.std.specs.Prelude.{◌≤◌, ◌↔◌, length, IfOk, IfSome, IsNone, IsSome, IsUtf8};
ghost use Rattle.toml.specs.Parse.{parse_document};

use std::alloc::{AllocError, Global};

/// Where a text stops being TOML, and why.
#[derive(Debug, Drop)]
pub struct SyntaxError {
    /// How many octets stand before the place.
    pub before: usize,
    /// Why, in the words of the parser.
    pub reason: String,
}

/// Where and why a text stops being UTF-8, or else TOML. None: it is a TOML document. `AllocError`: memory was refused.
pub fn syntax_error_at(alloc: Global, text: &[u8]) -> Result<Option<SyntaxError>, AllocError>
    ensures none { IfOk result (λ at. IsNone at ↔ (IsUtf8 text.now × IsSome (parse_document text.now))) }
    ensures within { IfOk result (λ at. IfSome at (λ e. e.before ≤ length text.now)) }
{
    match toml::table_from_slice(alloc, text) {
        Ok(_) => Ok(None),
        Err(error) => match error.span() {
            None => Err(AllocError),
            Some(span) => Ok(Some(SyntaxError {
                before: span.start,
                reason: String::from_str(alloc, error.message())?,
            })),
        },
    }
}
