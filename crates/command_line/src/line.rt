//! The lines that the program takes.
ghost use Rattle.std.specs.Prelude.{◌≡◌, ◌≤◌, IfOk, IfErr, OnOk, Some, codes, length, option_map};
ghost use Rattle.clap.specs.Walk.{texts};
ghost use Rattle.std.specs.Str.{bytes_eq};
ghost use Rattle.command_line.specs.Meaning.{AreTaken, ComparesSomething, Explains, HasDepth, LendsToParts, ReadsInputOnce};
ghost use Rattle.command_line.specs.Meaning.{KeepsOutputApart, are_no_captures, compares_nothing, input_uses, inputs_among};
ghost use Rattle.command_line.specs.Meaning.{is_output, is_printing, lends_to_a_whole, list_of, meaning_of, mixes_output};
ghost use Rattle.command_line.specs.Meaning.{view_of, words_meant};

use crate::capture::{NO_CAPTURE, STANDARD_INPUT, STANDARD_OUTPUT, capture_name};
use crate::words::line_in;
use std::alloc::Global;
use thiserror::Error;

/// What the words ask for, with the values that stand in them: names of files and of a folder, as they were given, none of
/// them empty; [`capture_name`] takes those of captures apart. One capture at most is [`STANDARD_INPUT`].
#[derive(Debug, Drop)]
pub enum Line<'a> {
    /// A run on the built-in sample.
    Sample,
    /// A run on captures.
    Run {
        /// The settings text's file.
        settings: &'a str,
        /// The changes text's file.
        changes: Option<&'a str>,
        /// The capture of the underlay.
        underlay: &'a str,
        /// The folder that outputs are written into. Where there is none, something is told of the run.
        out: Option<&'a str>,
        /// The captures of port 1, port 2 and so on: one at least.
        ports: Vec<&'a str>,
        /// Whether the tables are told as they are behind the last event.
        tables: bool,
        /// The moment, in nanoseconds, at which they are told: behind the last event up to it.
        tables_at: Option<u64>,
        /// The events of which it is told why they came out as they did.
        why: Vec<&'a str>,
        /// Whether the counts are told.
        summary: bool,
        /// Whether it is told who sent to whom.
        talkers: bool,
        /// The segments that are run, where they are a part of the run.
        segments: Option<&'a str>,
        /// The file of the digests that are lent to the part, where they are; there are segments then.
        digests: Option<&'a str>,
        /// Whether what the switch itself sent is left out of the captures.
        both: bool,
        /// How long behind its frame that may come, as it was given.
        within: Option<&'a str>,
        /// The file of the list of what is left out, where there is one. [`STANDARD_OUTPUT`] is one.
        list: Option<&'a str>,
        /// Whether all is told as JSON, too.
        json: bool,
        /// Whether no progress is shown.
        quiet: bool,
        /// The file of its view, where there is one: one capture of what came and what left. [`STANDARD_OUTPUT`] is one.
        pcapng: Option<&'a str>,
    },
    /// A look at the texts, and at the captures that are named.
    Check {
        /// The settings text's file.
        settings: &'a str,
        /// The changes text's file.
        changes: Option<&'a str>,
        /// The capture of the underlay.
        underlay: Option<&'a str>,
        /// The captures of port 1, port 2 and so on.
        ports: Vec<&'a str>,
        /// Whether it is told as JSON.
        json: bool,
    },
    /// The packets of a capture taken apart.
    Explain {
        /// The settings text's file.
        settings: &'a str,
        /// How many tunnels are looked into: 1 to 4.
        depth: u8,
        /// Whether the values of each head are told.
        values: bool,
        /// The capture of the underlay that is explained.
        capture: &'a str,
        /// Whether it is told as JSON.
        json: bool,
    },
    /// A settings text as one of version 2.
    Migrate {
        /// The settings text's file.
        settings: &'a str,
    },
    /// The digests of captures.
    Digest {
        /// The capture of the underlay.
        underlay: &'a str,
        /// The captures of port 1, port 2 and so on: one at least.
        ports: Vec<&'a str>,
    },
    /// The parts of a run made the whole run.
    Merge {
        /// The folder that outputs are written into.
        out: &'a str,
        /// The folders of the parts: one at least.
        parts: Vec<&'a str>,
        /// Whether the tables are told as they are behind the last event.
        tables: bool,
        /// Whether the counts are told.
        summary: bool,
        /// Whether these are told as JSON.
        json: bool,
    },
    /// A pcapng capture made one capture for each of its interfaces.
    Split {
        /// The folder that outputs are written into.
        out: &'a str,
        /// The capture.
        capture: &'a str,
    },
    /// A page made of what a run gave.
    Report {
        /// The folder that the run wrote into.
        folder: &'a str,
        /// The file of the page.
        page: &'a str,
    },
    /// What was sent compared with what was received.
    Compare {
        /// The capture of what was sent.
        sent: &'a str,
        /// The capture of what was received.
        received: &'a str,
        /// How much later a record may be received.
        within: Option<&'a str>,
        /// How far the clock of what was received is ahead.
        shift: Option<&'a str>,
        /// Whether what is of one alone is listed.
        lists: bool,
        /// What a table is by: `length` or `delay`.
        by: Option<&'a str>,
        /// Whether frames to the addresses that no bridge forwards are left aside.
        ignores: bool,
        /// Whether it is told as JSON.
        json: bool,
    },
    /// What a run wrote compared with what was captured of what went out.
    CompareWorked {
        /// The folder that the run wrote into.
        worked: &'a str,
        /// What was captured at the underlay; `-` where nothing was.
        underlay: &'a str,
        /// What was captured at port 1, port 2 and so on: one at least; `-` where nothing was.
        ports: Vec<&'a str>,
        /// How much later a record may be captured.
        within: Option<&'a str>,
        /// How far the clock of what was captured is ahead.
        shift: Option<&'a str>,
        /// The settings text's file, where the tunnels are those of settings.
        settings: Option<&'a str>,
        /// Whether all octets are compared at the underlay, too.
        strict: bool,
        /// Whether what is of one alone is listed.
        lists: bool,
        /// What a table is by: `length` or `delay`.
        by: Option<&'a str>,
        /// Whether frames to the addresses that no bridge forwards are left aside.
        ignores: bool,
        /// Whether it is told as JSON.
        json: bool,
    },
    /// Who reaches whom by the settings of many endpoints.
    Fabric {
        /// The settings texts' files: one at least.
        leaves: Vec<&'a str>,
    },
}

/// Why there is no line.
#[derive(Debug, Drop, Error)]
pub enum LineFault {
    /// A growth was refused.
    #[error("memory")]
    OutOfMemory,
    /// `clap` doesn't take the words, or was asked for help or for the version.
    #[error("{0}")]
    Refused(clap::Error),
    /// `clap`'s matches lack a required value.
    #[error("words")]
    NoValue,
    /// `compare` is given neither two captures, nor a folder of a run with what was captured at the underlay and at ports.
    #[error("error: compare takes SENT and RECEIVED, or --worked DIR, --underlay FILE and a capture for each port")]
    Unpaired,
    /// `compare` is given settings, or is asked to be strict, and no folder of a run.
    #[error("error: --settings and --strict go with --worked DIR")]
    NoFolder,
    /// What `compare` is asked to leave aside is nothing that it knows.
    #[error("error: --ignore takes the word 'reserved'")]
    Ignored,
    /// `fabric` is given no word `check` with settings texts behind it.
    #[error("error: fabric takes the word 'check' and a settings text for each endpoint")]
    NoCheck,
    /// More captures than one are standard input.
    #[error("error: standard input '-' can be one capture only")]
    InputTwice,
    /// Digests are lent to a run that is no part.
    #[error("error: --digests lends digests to a part of a run, and there is no --segments")]
    NoSegments,
    /// Of a view, a list and what is printed two go to standard output.
    #[error("error: standard output can be one thing only: --pcapng -, --list - or what --why, --tables, --tables-at, --summary and --talkers print")]
    OutputTwice,
    /// What a run wrote is compared with no capture.
    #[error("error: each capture is '-', so nothing is compared")]
    NoCapture,
}

/// Reads all words, the program's name first.
pub fn line_of<'a>(alloc: Global, words: &'a [&'a str]) -> Result<Line<'a>, LineFault>
    ensures ok { IfOk result (λ line. words_meant (texts words.entry.now) ≡ Some (meaning_of line)) }
    ensures depth { IfOk result HasDepth }
    ensures once { IfOk result (λ line. ReadsInputOnce (meaning_of line)) }
    ensures lends { IfOk result (λ line. LendsToParts (meaning_of line)) }
    ensures apart { IfOk result (λ line. KeepsOutputApart (meaning_of line)) }
    ensures compares { IfOk result (λ line. ComparesSomething (meaning_of line)) }
    ensures taken { OnOk result (AreTaken (texts words.entry.now)) }
    ensures fault { IfErr result (Explains (texts words.entry.now)) }
{
    let line = match line_in(alloc, words) {
        Ok(line) => line,
        Err(fault) => return Err(fault),
    };
    if input_uses(&line) > 1 {
        return Err(LineFault::InputTwice);
    }
    if lends_to_a_whole(&line) {
        return Err(LineFault::NoSegments);
    }
    if mixes_output(&line) {
        return Err(LineFault::OutputTwice);
    }
    if compares_nothing(&line) {
        return Err(LineFault::NoCapture);
    }
    Ok(line)
}

/// How many captures of a line are standard input.
fn input_uses(line: &Line<'_>) -> usize
    ensures { result ≡ input_uses (meaning_of line.now) }
{
    match line {
        Line::Run {
            underlay,
            ports,
            ..
        }
        | Line::Digest { underlay, ports } => {
            inputs_among(&[*underlay]) + inputs_among(ports.as_slice())
        }
        Line::Check {
            underlay: Some(underlay),
            ports,
            ..
        } => inputs_among(&[*underlay]) + inputs_among(ports.as_slice()),
        Line::Check { ports, .. } => inputs_among(ports.as_slice()),
        Line::Explain { capture, .. } | Line::Split { capture, .. } => inputs_among(&[*capture]),
        Line::Compare { sent, received, .. } => inputs_among(&[*sent, *received]),
        Line::Sample
        | Line::Migrate { .. }
        | Line::Merge { .. }
        | Line::Report { .. }
        | Line::Fabric { .. }
        | Line::CompareWorked { .. } => 0,
    }
}

/// Whether a line lends digests to a run that is no part.
fn lends_to_a_whole(line: &Line<'_>) -> bool
    ensures { result ≡ lends_to_a_whole (meaning_of line.now) }
{
    match line {
        Line::Run {
            segments,
            digests,
            ..
        } => digests.is_some() && segments.is_none(),
        _ => false,
    }
}

/// Whether something is printed of a run besides its outputs.
pub(crate) fn is_printing(line: &Line<'_>) -> bool
    ensures { result ≡ is_printing (meaning_of line.now) }
{
    match line {
        Line::Run {
            tables,
            tables_at,
            why,
            summary,
            talkers,
            ..
        } => *tables || tables_at.is_some() || !why.is_empty() || *summary || *talkers,
        _ => false,
    }
}

/// The file of the view of a run, where there is one.
pub(crate) fn view_of<'a>(line: &Line<'a>) -> Option<&'a str>
    ensures { option_map (λ t. t.now) result ≡ view_of (meaning_of line.now) }
{
    match line {
        Line::Run { pcapng, .. } => *pcapng,
        _ => None,
    }
}

/// The file of the list of what a run leaves out, where there is one.
pub(crate) fn list_of<'a>(line: &Line<'a>) -> Option<&'a str>
    ensures { option_map (λ t. t.now) result ≡ list_of (meaning_of line.now) }
{
    match line {
        Line::Run { list, .. } => *list,
        _ => None,
    }
}

/// Whether of the view of a run, its list and what is printed two go to standard output.
fn mixes_output(line: &Line<'_>) -> bool
    ensures { result ≡ mixes_output (meaning_of line.now) }
{
    let view = is_output(view_of(line));
    let list = is_output(list_of(line));
    is_printing(line) && (view || list) || view && list
}

/// Whether a file is standard output.
fn is_output(file: Option<&str>) -> bool
    ensures { result ≡ is_output (option_map (λ t. t.now) file.entry) }
{
    match file {
        Some(name) => name == STANDARD_OUTPUT,
        None => false,
    }
}

/// Whether a line compares what a run wrote with no capture.
fn compares_nothing(line: &Line<'_>) -> bool
    ensures { result ≡ compares_nothing (meaning_of line.now) }
{
    match line {
        Line::CompareWorked {
            underlay,
            ports,
            ..
        } => is_no_capture(*underlay) && are_no_captures(ports.as_slice()),
        _ => false,
    }
}

/// Whether each of some names says that there is no capture.
fn are_no_captures(names: &[&str]) -> bool
    ensures { result ≡ are_no_captures (texts names.now) }
{
    for name in names {
        if !is_no_capture(*name) {
            return false;
        }
    }
    true
}

/// Whether a name says that there is no capture.
fn is_no_capture(name: &str) -> bool
    ensures { result ≡ bytes_eq name.now (codes "-") }
{
    name == NO_CAPTURE
}

/// How many captures of some names are standard input.
fn inputs_among(names: &[&str]) -> usize
    ensures count { result ≡ inputs_among (texts names.now) }
    ensures bound { result ≤ length names.now }
{
    let mut count = 0;
    for name in names {
        if capture_name(*name).file == STANDARD_INPUT {
            count += 1;
        }
    }
    count
}
