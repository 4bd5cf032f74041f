//! The path of a key: names, and the numbers of the tables of lists, joined by dots.
ghost use Rattle.std.specs.Prelude.{◌≡◌, [], map, option_map, IfOk};
ghost use Rattle.text_advice.specs.Path.{is_number, joined, plain, target, spot_of};
ghost use Rattle.text_advice.specs.Search.{block_of};

use crate::block::Block;
use crate::search::table_in;
use std::alloc::{AllocError, Global};

/// A table of a text, and a key that is looked for there.
#[derive(Clone, Copy)]
pub(crate) struct Spot<'p, 'l, 'a> {
    pub(crate) block: Block<'l, 'a>,
    /// Empty: the table itself is meant.
    pub(crate) key: &'p [u8],
}

/// Whether a part of a path is the number of a table of a list.
fn is_number(part: &[u8]) -> bool
    ensures { result ≡ is_number part.now }
{
    match part {
        [c, ..] => b'0' <= *c && *c <= b'9',
        [] => false,
    }
}

/// A name behind that of the table around it.
fn joined(alloc: Global, around: &[u8], name: &[u8]) -> Result<Vec<u8>, AllocError>
    ensures { IfOk result (λ v. v.items ≡ joined around.now name.now) }
{
    let mut path = Vec::new(alloc);
    if !around.is_empty() {
        path.extend_from_slice(around)?;
        path.push(b'.')?;
    }
    path.extend_from_slice(name)?;
    Ok(path)
}

/// A path without its numbers.
pub(crate) fn plain(alloc: Global, parts: &[&[u8]]) -> Result<Vec<u8>, AllocError>
    ensures { IfOk result (λ v. v.items ≡ plain [] (map (λ p. p.now) parts.now)) }
{
    let mut path = Vec::new(alloc);
    for part in parts {
        if !is_number(part) {
            path = joined(alloc, path.as_slice(), part)?;
        }
    }
    Ok(path)
}

/// The table that a path means within a block, and the key there; none where the search doesn't find it.
pub(crate) fn target<'p, 'l, 'a>(
    alloc: Global,
    around: &[u8],
    block: Block<'l, 'a>,
    parts: &'p [&'p [u8]],
) -> Result<Option<Spot<'p, 'l, 'a>>, AllocError>
    ensures { IfOk result (λ t. option_map spot_of t ≡ target around.now (block_of block.entry) (map (λ p. p.now) parts.now)) }
{
    match parts {
        [] => Ok(Some(Spot { block, key: &[] })),
        [key] => Ok(Some(Spot { block, key })),
        [part, next, others @ ..] => {
            let name = joined(alloc, around, part)?;
            if is_number(next) {
                match table_in(around, name.as_slice(), next, block) {
                    Some(found) => target(alloc, name.as_slice(), found, others),
                    None => Ok(None),
                }
            } else {
                match table_in(around, name.as_slice(), b"1", block) {
                    Some(found) => target(alloc, name.as_slice(), found, &parts[1..]),
                    None => Ok(None),
                }
            }
        }
    }
}
