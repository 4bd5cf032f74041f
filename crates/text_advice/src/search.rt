//! Where a table and its keys stand in the lines of a text.
ghost use Rattle.std.specs.Prelude.{◌≡◌, map, option_map, decimal};
ghost use Rattle.text_advice.specs.Line.{same};
ghost use Rattle.text_advice.specs.Search.{line_of, block_of, table_in, key_line, is_among, unknown_line};
ghost use Rattle.text_advice.specs.Search.{table_name, is_none_of, unknown_table, table_line};

use crate::block::{Block, Line};
use crate::line::{child_on, header_name, is_header, is_key_line, is_text, opens, word};

/// Whether the digits are those of a number.
fn writes(number: usize, digits: &[u8]) -> bool
    ensures { result ≡ same (decimal number) digits.now }
{
    let mut buffer = itoa::Buffer::new();
    buffer.format(number).as_bytes() == digits
}

/// The table of a name and a number, from 1, within the one around it.
pub(crate) fn table_in<'l, 'a>(
    around: &[u8],
    name: &[u8],
    digits: &[u8],
    block: Block<'l, 'a>,
) -> Option<Block<'l, 'a>>
    ensures { option_map block_of result ≡ table_in around.now name.now digits.now (block_of block.entry) }
{
    let mut count: usize = 0;
    for (i, line) in block.lines.iter().enumerate() {
        if opens(around, line) {
            return None;
        }
        if opens(name, line) {
            count += 1;
            if writes(count, digits) {
                let number = block.header.number + i + 1;
                return Some(Block {
                    header: Line { number, text: line },
                    lines: &block.lines[i + 1..],
                });
            }
        }
    }
    None
}

/// The line of a key, in front of the next header.
pub(crate) fn key_line<'a>(key: &[u8], block: Block<'_, 'a>) -> Option<Line<'a>>
    ensures { option_map line_of result ≡ key_line key.now (block_of block.entry) }
{
    for (i, line) in block.lines.iter().enumerate() {
        if is_header(line) {
            return None;
        }
        if word(line) == key {
            let number = block.header.number + i + 1;
            return Some(Line { number, text: line });
        }
    }
    None
}

/// Whether the word is one of these.
fn is_among(word: &[u8], keys: &[&str]) -> bool
    ensures { result ≡ is_among word.now (map (λ k. k.now) keys.now) }
{
    for key in keys {
        if word == key.as_bytes() {
            return true;
        }
    }
    false
}

/// The line of a key that isn't one of these, in front of the next header.
pub(crate) fn unknown_line<'a>(keys: &[&str], block: Block<'_, 'a>) -> Option<Line<'a>>
    ensures { option_map line_of result ≡ unknown_line (map (λ k. k.now) keys.now) (block_of block.entry) }
{
    for (i, line) in block.lines.iter().enumerate() {
        if is_header(line) {
            return None;
        }
        if is_key_line(line) && !is_among(word(line), keys) {
            let number = block.header.number + i + 1;
            return Some(Line { number, text: line });
        }
    }
    None
}

/// The name of a header's table; empty in front of the first.
pub(crate) fn table_name<'a>(header: Line<'a>) -> &'a [u8]
    ensures { result.now ≡ table_name (line_of header.entry) }
{
    match header_name(header.text) {
        Some(name) => name,
        None => &[],
    }
}

/// Whether what may be there is none of these.
fn is_none_of(keys: &[&str], name: Option<&[u8]>) -> bool
    ensures { result ≡ is_none_of (map (λ k. k.now) keys.now) (option_map (λ n. n.now) name.entry) }
{
    match name {
        Some(name) => !is_among(name, keys),
        None => false,
    }
}

/// The header of a table, within the one of the block, whose name there isn't one of these.
pub(crate) fn unknown_table<'a>(keys: &[&str], block: Block<'_, 'a>) -> Option<Line<'a>>
    ensures { option_map line_of result ≡ unknown_table (map (λ k. k.now) keys.now) (block_of block.entry) }
{
    let around = table_name(block.header);
    for (i, line) in block.lines.iter().enumerate() {
        if opens(around, line) {
            return None;
        }
        if is_none_of(keys, child_on(around, line)) {
            let number = block.header.number + i + 1;
            return Some(Line { number, text: line });
        }
    }
    None
}

/// The header of a table, within the one of the block, that has this name there.
pub(crate) fn table_line<'a>(key: &[u8], block: Block<'_, 'a>) -> Option<Line<'a>>
    ensures { option_map line_of result ≡ table_line key.now (block_of block.entry) }
{
    let around = table_name(block.header);
    for (i, line) in block.lines.iter().enumerate() {
        if opens(around, line) {
            return None;
        }
        if is_text(key, child_on(around, line)) {
            let number = block.header.number + i + 1;
            return Some(Line { number, text: line });
        }
    }
    None
}
