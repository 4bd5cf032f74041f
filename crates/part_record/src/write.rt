//! The text of a record.
ghost use Rattle.std.specs.Prelude.{◌≡◌, ◌≤◌, ◌++◌, length, IfOk, OnOk};
ghost use Rattle.std.specs.Option.{option_copied};
ghost use Rattle.part_record.specs.Record.{both_line, capture_line, capture_word, changes_line, facts_of};
ghost use Rattle.part_record.specs.Record.{facts_text, first_line, line, port_lines, sum_line, text_of};
ghost use Rattle.timeline.specs.declared.source.Tap.TheVariants.{Port};

use crate::facts::PartRecord;
use crate::outputs::{OutputFacts, put_outputs};
use crate::steps::digits_of;
use itoa::Buffer;
use std::alloc::{AllocError, Global};

/// The text of a record, one fact a line, and of what is told of the outputs. What is told of the texts that the part left is put
/// behind it by [`put_texts`](crate::put_texts). `Err`: a growth was refused.
pub fn text_of(
    alloc: Global,
    part: &PartRecord<'_>,
    outputs: &[OutputFacts],
) -> Result<Vec<u8>, AllocError>
    ensures { IfOk result (λ text. text.items ≡ text_of (facts_of part.now) outputs.now) }
{
    let mut text = facts_text(alloc, part)?;
    put_outputs(&mut text, outputs)?;
    Ok(text)
}

/// The lines of the facts.
fn facts_text(alloc: Global, part: &PartRecord<'_>) -> Result<Vec<u8>, AllocError>
    ensures { IfOk result (λ text. text.items ≡ facts_text (facts_of part.now)) }
{
    let mut text = Vec::from_slice(alloc, first_line(part.both.is_some()))?;
    put_line(&mut text, b"segments ", part.segments.as_bytes())?;
    put_sum(&mut text, b"settings ", &part.settings)?;
    put_changes(&mut text, part.changes.as_ref())?;
    put_ports(&mut text, part.ports.as_slice())?;
    put_sum(&mut text, b"capture u ", &part.underlay)?;
    put_both(&mut text, part.both)?;
    put_line(
        &mut text,
        b"events ",
        Buffer::new().format(part.events).as_bytes(),
    )?;
    Ok(text)
}

/// The first line, where captures hold both directions, and where they don't.
fn first_line<'a>(both: bool) -> &'a [u8]
    ensures { result.now ≡ first_line both }
{
    if both {
        b"tep shard 5\n"
    } else {
        b"tep shard 4\n"
    }
}

/// Puts the line of how long behind its frame what the switch itself sent was left out behind a text, where it was.
fn put_both(text: &mut Vec<u8>, both: Option<u64>) -> Result<(), AllocError>
    ensures { OnOk result (text.new.items ≡ text.old.items ++ both_line both) }
{
    match both {
        Some(within) => put_line(text, b"both ", Buffer::new().format(within).as_bytes()),
        None => Ok(()),
    }
}

/// Puts the line of a word and of what it tells behind a text.
fn put_line(text: &mut Vec<u8>, word: &[u8], told: &[u8]) -> Result<(), AllocError>
    ensures { OnOk result (text.new.items ≡ text.old.items ++ line word.now told.now) }
{
    text.extend_from_slice(word)?;
    text.extend_from_slice(told)?;
    text.push(b'\n')?;
    Ok(())
}

/// Puts the line of a digest behind a text.
pub(crate) fn put_sum(text: &mut Vec<u8>, word: &[u8], sum: &[u8; 32]) -> Result<(), AllocError>
    ensures { OnOk result (text.new.items ≡ text.old.items ++ sum_line word.now sum.now) }
{
    let digits = digits_of(sum);
    put_line(text, word, digits.as_slice())
}

/// Puts the line of the changes behind a text, where there are any.
fn put_changes(text: &mut Vec<u8>, sum: Option<&[u8; 32]>) -> Result<(), AllocError>
    ensures { OnOk result (text.new.items ≡ text.old.items ++ changes_line (option_copied sum.entry)) }
{
    match sum {
        Some(sum) => put_sum(text, b"changes ", sum),
        None => Ok(()),
    }
}

/// The word of the line of a port's capture, with the space behind it.
pub(crate) fn port_word(alloc: Global, port: u8) -> Result<Vec<u8>, AllocError>
    ensures { IfOk result (λ word. word.items ≡ capture_word (Port port)) }
{
    let mut word = Vec::from_slice(alloc, b"capture p")?;
    word.extend_from_slice(Buffer::new().format(port).as_bytes())?;
    word.push(b' ')?;
    Ok(word)
}

/// Puts the line of a port's capture behind a text.
fn put_port(text: &mut Vec<u8>, port: u8, sum: &[u8; 32]) -> Result<(), AllocError>
    ensures { OnOk result (text.new.items ≡ text.old.items ++ capture_line (Port port) sum.now) }
{
    let word = port_word(*text.allocator(), port)?;
    put_sum(text, word.as_slice(), sum)
}

/// Puts the lines of the ports' captures behind a text.
fn put_ports(text: &mut Vec<u8>, sums: &[[u8; 32]]) -> Result<(), AllocError>
    requires { length sums.now ≤ 255 }
    ensures { OnOk result (text.new.items ≡ text.old.items ++ port_lines 1 sums.now) }
{
    for index in 0..sums.len() {
        put_port(text, index as u8 + 1, &sums[index])?;
    }
    Ok(())
}
