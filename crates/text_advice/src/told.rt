//! What is told of the key of a fault.
ghost use Rattle.std.specs.Prelude.{◌≡◌, codes, map, option_map, IfOk};
ghost use Rattle.text_advice.specs.Near.{or_else};
ghost use Rattle.text_advice.specs.Search.{line_of, block_of, key_line, top};
ghost use Rattle.text_advice.specs.Path.{spot_of};
ghost use Rattle.text_advice.specs.Split.{split};
ghost use Rattle.text_advice.specs.Told.{variant, named_line, spot_line, header_place, past_quote};
ghost use Rattle.text_advice.specs.Told.{key_on, found_on, value_word, told_of, at_line, told_at, told};

use crate::allowed::sentence_of;
use crate::block::{Block, Line};
use crate::known::{TextKind, keys_of};
use crate::line::{bare, child_on, is_header, past_blanks, value, word};
use crate::near::nearest;
use crate::path::{Spot, plain, target};
use crate::place::{Place, place_in};
use crate::search::{key_line, table_line, table_name, unknown_line, unknown_table};
use crate::split::split;
use std::alloc::{AllocError, Global};

/// What is told of the key of a fault.
#[derive(Clone, Copy)]
pub(crate) struct Findings<'a> {
    pub(crate) place: Option<Place>,
    pub(crate) found: Option<&'a [u8]>,
    pub(crate) near: Option<&'static str>,
    /// The keys of the table; empty where the fault is that of a single key.
    pub(crate) keys: &'static [&'static str],
    pub(crate) allowed: Option<&'static str>,
}

/// A text without the quote in front.
fn past_quote(text: &[u8]) -> &[u8]
    ensures { result.now ≡ past_quote text.now }
{
    match text {
        [b'"' | b'\'', behind @ ..] => behind,
        _ => text,
    }
}

/// The word with which the value on a line begins, with or without a quote in front.
fn value_word(line: Option<Line>) -> &[u8]
    ensures { result.now ≡ value_word (option_map line_of line.entry) }
{
    match line {
        Some(line) => match value(line.text) {
            Some(value) => bare(past_quote(value)),
            None => &[],
        },
        None => &[],
    }
}

/// The line of a change's kind, or else that of the version of the whole text.
fn variant_line<'a>(whole: Block<'_, 'a>, table: Block<'_, 'a>) -> Option<Line<'a>>
    ensures { option_map line_of result
        ≡ or_else (key_line (codes "kind") (block_of table.entry)) (key_line (codes "version") (block_of whole.entry)) }
{
    match key_line(b"kind", table) {
        Some(line) => Some(line),
        None => key_line(b"version", whole),
    }
}

/// What a text says it is: settings their version; of changes a table its kind, or where it says none the text its version.
fn variant<'a>(kind: TextKind, whole: Block<'_, 'a>, table: Block<'_, 'a>) -> &'a [u8]
    ensures { result.now ≡ variant kind (block_of whole.entry) (block_of table.entry) }
{
    match kind {
        TextKind::Settings => value_word(key_line(b"version", whole)),
        TextKind::Changes => value_word(variant_line(whole, table)),
    }
}

/// The line of a key, or else the header of a table of its name; none where the block's own table is meant.
fn named_line<'a>(key: &[u8], block: Block<'_, 'a>) -> Option<Line<'a>>
    ensures { option_map line_of result ≡ named_line key.now (block_of block.entry) }
{
    if key.is_empty() {
        return None;
    }
    match key_line(key, block) {
        Some(line) => Some(line),
        None => table_line(key, block),
    }
}

/// The line of a fault's key; where it is one that isn't among the table's keys, the first of these, or else the first header
/// of a table that isn't among them.
fn spot_line<'a>(keys: &[&str], spot: Spot<'_, '_, 'a>) -> Option<Line<'a>>
    ensures { option_map line_of result ≡ spot_line (map (λ k. k.now) keys.now) (spot_of spot.entry) }
{
    if keys.is_empty() {
        named_line(spot.key, spot.block)
    } else {
        match unknown_line(keys, spot.block) {
            Some(line) => Some(line),
            None => unknown_table(keys, spot.block),
        }
    }
}

fn header_place(header: Line) -> Option<Place>
    ensures { result ≡ header_place (line_of header.entry) }
{
    if header.number == 0 {
        None
    } else {
        Some(place_in(header))
    }
}

/// The key that a line of a header's table gives a value, or the name that the table it opens has there.
fn key_on<'a>(header: Line<'a>, line: Line<'a>) -> &'a [u8]
    ensures { result.now ≡ key_on (line_of header.entry) (line_of line.entry) }
{
    match child_on(table_name(header), line.text) {
        Some(name) => name,
        None => word(line.text),
    }
}

/// The value of a key or the header of its table, or the key itself where it isn't one of the table's.
fn found_on<'a>(keys: &[&str], header: Line<'a>, line: Line<'a>) -> &'a [u8]
    ensures { result.now ≡ found_on (map (λ k. k.now) keys.now) (line_of header.entry) (line_of line.entry) }
{
    if !keys.is_empty() {
        key_on(header, line)
    } else if is_header(line.text) {
        past_blanks(line.text)
    } else {
        value(line.text).unwrap_or(&[])
    }
}

fn at_line<'a>(
    alloc: Global,
    keys: &'static [&'static str],
    allowed: Option<&'static str>,
    header: Line<'a>,
    line: Option<Line<'a>>,
) -> Result<Findings<'a>, AllocError>
    ensures { IfOk result (λ t. told_of t ≡ at_line (map (λ k. k.now) keys.now)
        (option_map (λ s. s.now) allowed.entry) (line_of header.entry) (option_map line_of line.entry)) }
{
    match line {
        None => Ok(Findings {
            place: header_place(header),
            found: None,
            near: None,
            keys,
            allowed,
        }),
        Some(line) => {
            let near = nearest(alloc, key_on(header, line), keys)?;
            Ok(Findings {
                place: Some(place_in(line)),
                found: Some(found_on(keys, header, line)),
                near,
                keys,
                allowed,
            })
        }
    }
}

fn told_at<'a>(
    alloc: Global,
    kind: TextKind,
    whole: Block<'_, 'a>,
    path: &[u8],
    fault: &[u8],
    spot: Option<Spot<'_, '_, 'a>>,
) -> Result<Findings<'a>, AllocError>
    ensures { IfOk result (λ t. told_of t ≡ told_at kind (block_of whole.entry) path.now fault.now (option_map spot_of spot.entry)) }
{
    match spot {
        None => {
            let variant = variant(kind, whole, whole);
            let keys = keys_of(kind, path, variant);
            let allowed = sentence_of(kind, path, variant, fault);
            at_line(alloc, keys, allowed, whole.header, None)
        }
        Some(spot) => {
            let variant = variant(kind, whole, spot.block);
            let keys = keys_of(kind, path, variant);
            let allowed = sentence_of(kind, path, variant, fault);
            at_line(
                alloc,
                keys,
                allowed,
                spot.block.header,
                spot_line(keys, spot),
            )
        }
    }
}

/// What is told of the key of a path, in a text of these lines, for a fault.
pub(crate) fn told<'a>(
    alloc: Global,
    kind: TextKind,
    lines: &[&'a [u8]],
    path: &[u8],
    fault: &[u8],
) -> Result<Findings<'a>, AllocError>
    ensures { IfOk result (λ t. told_of t ≡ told kind (map (λ l. l.now) lines.now) (split 46 path.now) fault.now) }
{
    let whole = Block {
        header: Line {
            number: 0,
            text: &[],
        },
        lines,
    };
    let parts = split(alloc, b'.', path)?;
    let path = plain(alloc, parts.as_slice())?;
    let spot = target(alloc, &[], whole, parts.as_slice())?;
    told_at(alloc, kind, whole, path.as_slice(), fault, spot)
}
