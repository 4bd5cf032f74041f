//! The front of a decision line.
ghost use Rattle.std.specs.Prelude.{◌≡◌, ◌++◌, OnOk, codes, decimal, string_bytes};
ghost use Rattle.timeline.specs.Words.{source_word, tap_word};
ghost use Rattle.decision_lines.specs.Lines.{front_text, line_front, segment_text};

use std::alloc::AllocError;
use std::fmt::Write;
use timeline::{Event, Source, Tap};
use wire::ether::Vid;

/// Puts what stands before the result in the decision line of an event: its number in the run, its moment, its source, its
/// number there, and the VID of a segment or a dash for none. `AllocError`: there was no room for it.
pub fn put_line_front(
    text: &mut String,
    number: u64,
    event: &Event,
    segment: Option<Vid>,
) -> Result<(), AllocError>
    ensures { OnOk result (string_bytes text.new
        ≡ string_bytes text.old ++ (line_front number event.now ++ (segment_text segment ++ codes " "))) }
{
    put_origin(text, number, event.moment, event.source(), event.number)?;
    put_segment(text, segment)
}

/// Puts the number of an event, its moment, its source and its number there.
fn put_origin(
    text: &mut String,
    number: u64,
    moment: u64,
    source: Source,
    own: u64,
) -> Result<(), AllocError>
    ensures { OnOk result (string_bytes text.new ≡ string_bytes text.old ++ front_text number moment source own) }
{
    write!(text, "{number} {moment} ")?;
    put_source(text, source)?;
    write!(text, " {own} ")
}

/// Puts where an event comes from.
fn put_source(text: &mut String, source: Source) -> Result<(), AllocError>
    ensures { OnOk result (string_bytes text.new ≡ string_bytes text.old ++ source_word source) }
{
    match source {
        Source::Changes => text.push('c'),
        Source::Tap(tap) => put_tap(text, tap),
    }
}

/// Puts where a capture is taken.
fn put_tap(text: &mut String, tap: Tap) -> Result<(), AllocError>
    ensures { OnOk result (string_bytes text.new ≡ string_bytes text.old ++ tap_word tap) }
{
    match tap {
        Tap::Underlay => text.push('u'),
        Tap::Port(port) => write!(text, "p{port}"),
    }
}

/// Puts the VID of a segment, or a dash for none, and a space.
fn put_segment(text: &mut String, segment: Option<Vid>) -> Result<(), AllocError>
    ensures { OnOk result (string_bytes text.new ≡ string_bytes text.old ++ (segment_text segment ++ codes " ")) }
{
    match segment {
        Some(vid) => put_vid(text, vid.get()),
        None => text.push_str("- "),
    }
}

fn put_vid(text: &mut String, number: u16) -> Result<(), AllocError>
    ensures { OnOk result (string_bytes text.new ≡ string_bytes text.old ++ (decimal number ++ codes " ")) }
{
    write!(text, "{number} ")
}
