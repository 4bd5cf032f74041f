//! The lines of who talks to whom.
ghost use Rattle.std.specs.Prelude.{◌≡◌, ◌++◌, OnOk, string_bytes};
ghost use Rattle.std.specs.List.{flat_map};
ghost use Rattle.talkers.specs.Lines.{exit_text, others_line, passed_text, short_text, talk_line, talk_text};

use crate::rows::{Exit, Passed, Talk, TalkRow};
use change_story::words::put_mac;
use endpoint_core::put_place;
use std::alloc::AllocError;
use std::fmt::Write;

/// Puts the lines of these rows, and of what all others come to.
pub fn put_talks(text: &mut String, rows: &[TalkRow], others: Passed) -> Result<(), AllocError>
    ensures { OnOk result (string_bytes text.new ≡ string_bytes text.old ++ flat_map talk_line rows.now ++ others_line others) }
{
    put_rows(text, rows)?;
    put_others(text, others)
}

/// Puts the lines of rows.
fn put_rows(text: &mut String, rows: &[TalkRow]) -> Result<(), AllocError>
    ensures { OnOk result (string_bytes text.new ≡ string_bytes text.old ++ flat_map talk_line rows.now) }
{
    for row in rows {
        put_row(text, row)?;
    }
    Ok(())
}

/// Puts the line of a row.
#[tactic(auto, unfolding(crate::specs::Lines::talk_line))]
fn put_row(text: &mut String, row: &TalkRow) -> Result<(), AllocError>
    ensures { OnOk result (string_bytes text.new ≡ string_bytes text.old ++ talk_line row.now) }
{
    text.push_str("talk ")?;
    put_talk(text, &row.key)?;
    put_passed(text, row.counts.counts)?;
    put_short(text, row.counts.before)?;
    text.push('\n')
}

/// Puts who sent to whom.
#[tactic(auto, unfolding(crate::specs::Lines::talk_text))]
fn put_talk(text: &mut String, talk: &Talk) -> Result<(), AllocError>
    ensures { OnOk result (string_bytes text.new ≡ string_bytes text.old ++ talk_text talk.now) }
{
    let vid = talk.vid.get();
    write!(text, "{vid} ")?;
    put_mac(text, &talk.source.0)?;
    text.push(' ')?;
    put_place(text, true, talk.from)?;
    text.push_str(" > ")?;
    put_mac(text, &talk.destination.0)?;
    text.push(' ')?;
    put_exit(text, talk.to)
}

/// Puts where frames went.
fn put_exit(text: &mut String, to: Exit) -> Result<(), AllocError>
    ensures { OnOk result (string_bytes text.new ≡ string_bytes text.old ++ exit_text to) }
{
    match to {
        Exit::To(place) => put_place(text, true, place),
        Exit::Flood => text.push_str("flood"),
        Exit::Drop => text.push_str("drop"),
    }
}

/// Puts how many frames a talk may have had before, where any.
#[tactic(auto, unfolding(crate::specs::Lines::short_text))]
fn put_short(text: &mut String, before: u64) -> Result<(), AllocError>
    ensures { OnOk result (string_bytes text.new ≡ string_bytes text.old ++ short_text before) }
{
    if before == 0 {
        return Ok(());
    }
    write!(text, " short {before}")
}

/// Puts what passed of all other talks.
#[tactic(auto, unfolding(crate::specs::Lines::others_line))]
fn put_others(text: &mut String, others: Passed) -> Result<(), AllocError>
    ensures { OnOk result (string_bytes text.new ≡ string_bytes text.old ++ others_line others) }
{
    if others.frames == 0 {
        return Ok(());
    }
    text.push_str("talk others")?;
    put_passed(text, others)?;
    text.push('\n')
}

/// Puts how many frames and octets passed, and from when to when.
fn put_passed(text: &mut String, passed: Passed) -> Result<(), AllocError>
    ensures { OnOk result (string_bytes text.new ≡ string_bytes text.old ++ passed_text passed) }
{
    let Passed {
        frames,
        octets,
        first,
        last,
    } = passed;
    write!(text, " {frames} {octets} first {first} last {last}")
}
