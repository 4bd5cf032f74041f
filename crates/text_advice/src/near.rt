//! The known key that is nearest to a word.
ghost use Rattle.std.specs.Prelude.{◌≡◌, map, option_map, IfOk};
ghost use Rattle.text_advice.specs.Near.{within, nearest};

use std::alloc::{AllocError, Global};
use strsim::generic_levenshtein;

/// The first key that is at most so many edits away.
#[tactic(auto, unfolding(crate::specs::Near::distance))]
fn within(
    alloc: Global,
    most: usize,
    word: &[u8],
    keys: &[&'static str],
) -> Result<Option<&'static str>, AllocError>
    ensures { IfOk result (λ k. option_map (λ s. s.now) k ≡ within most word.now (map (λ k. k.now) keys.now)) }
{
    for key in keys {
        let edits = generic_levenshtein(alloc, word, key.as_bytes())?;
        if edits <= most {
            return Ok(Some(*key));
        }
    }
    Ok(None)
}

/// The first key that is at most one edit away, or else, of a word of four octets or more, the first that is two away.
pub(crate) fn nearest(
    alloc: Global,
    word: &[u8],
    keys: &[&'static str],
) -> Result<Option<&'static str>, AllocError>
    ensures { IfOk result (λ k. option_map (λ s. s.now) k ≡ nearest word.now (map (λ k. k.now) keys.now)) }
{
    match within(alloc, 1, word, keys)? {
        Some(key) => Ok(Some(key)),
        None if word.len() >= 4 => within(alloc, 2, word, keys),
        None => Ok(None),
    }
}
