//! What a run wrote, compared with what was captured of what went out.
ghost use Rattle.std.specs.Prelude.{◌≡◌, ◌≤◌, ◌+◌, ◌++◌, OnOk, Some, codes, min};
ghost use Rattle.timeline.specs.Words.{tap_word};
ghost use Rattle.timeline.specs.declared.source.Tap.TheVariants.{Port};
ghost use Rattle.capture_compare.specs.Counts.{counts_text};
ghost use Rattle.capture_compare.specs.declared.lines.counts.Scope.TheVariants as scopes;

use crate::compared::clock_by;
use crate::lent::{Names, compare_lent, unless_same};
use crate::standard_output::{StandardOutput, open_output};
use capture_compare::carried::{Manner, Sameness};
use capture_compare::lines::{CountLines, Counts, Scope};
use capture_run::of_settings;
use command_line::NO_CAPTURE;
use compare_reports::{Asked, Printer, Segments, print_told};
use overlay_config::settings_of;
use program_files::{
    Failure, OutputFile, Shown, WorkedFailure, open_seen, open_written, path_of, read_file,
};
use std::alloc::AllocError;
use std::io::Input;
use std::rt::Files;
use std::{fmt, fs};
use timeline::Tap;

/// What is compared, by the words.
#[derive(Clone, Copy)]
pub struct Worked<'n, 'a> {
    /// The folder that the run wrote into.
    pub folder: &'a str,
    /// What was captured at the underlay.
    pub underlay: &'a str,
    /// What was captured at port 1, port 2 and so on.
    pub ports: &'n [&'a str],
    /// How much later a record may be captured.
    pub within: Option<&'a str>,
    /// How far the clock of what was captured is ahead.
    pub shift: Option<&'a str>,
    /// The settings text, whose tunnels are looked for and whose segments are told.
    pub settings: Option<&'a str>,
    /// Whether records of the underlay are the same octet for octet only.
    pub strict: bool,
    /// Whether what is of one alone is listed.
    pub lists: bool,
    /// What a table is by.
    pub by: Option<&'a str>,
    /// Whether frames to the addresses that no bridge forwards are left aside.
    pub ignores: bool,
    /// How it is printed.
    pub shown: Shown,
}

/// Compares each capture that a run wrote with what was captured at its place, and prints the counts of each place, of each segment
/// of the settings, and of all: at ports records are the same octet for octet, at the underlay what packets carry in tunnels, unless
/// that is to be strict, too. What was compared before a fault is printed, too, but for the counts of segments. Where all is the same
/// it is done; else they differ.
#[inline(never)]
pub fn compare_worked<'a, R: Files + Input + AllocGlobal + Print>(
    rt: &R,
    asked: Worked<'_, 'a>,
) -> Result<(), Failure<'a>> {
    let clock = clock_by(asked.within, asked.shift)?;
    let segments = open_segments(rt, asked.settings)?;
    let tunnels = segments.tunnels()?;
    let told = Asked::of(clock, asked.shift.is_some(), asked.lists, asked.by);
    check_folder(rt, asked)?;
    check_twice(asked)?;
    let at_underlay = Manner {
        sameness: Sameness::of_underlay(tunnels, asked.strict),
        ignores_reserved: asked.ignores,
    };
    let (segments, at_ports) = compare_ports(rt, asked, told, segments)?;
    let place = Place {
        tap: Tap::Underlay,
        output: OutputFile::Underlay,
        seen: asked.underlay,
    };
    let (segments, at_last) = compare_place(rt, asked, place, &at_underlay, told, segments)?;
    let mut output: StandardOutput<'_, 'a, R, R::File> = StandardOutput::new(rt, asked.shown);
    print_sums(&mut output, &segments, at_ports.and(at_last))
}

/// Segments of the settings text of this name, of which no record was told.
fn open_segments<'a, R: Files + AllocGlobal>(
    rt: &R,
    settings: Option<&'a str>,
) -> Result<Segments, Failure<'a>> {
    let Some(name) = settings else {
        return Ok(Segments::none());
    };
    let text = read_file(rt, name)?;
    match settings_of(rt.alloc(), text.as_slice()) {
        Ok(settings) => Ok(Segments::open(rt.alloc(), settings)?),
        Err(fault) => Err(Failure::Run(of_settings(fault))),
    }
}

/// Prints the counts of each segment of the settings, and those of all places. Where these are the same it is done; else they differ.
fn print_sums<'a, P: Printer<Fault = Failure<'a>>>(
    printer: &mut P,
    segments: &Segments,
    all: Counts,
) -> Result<(), Failure<'a>> {
    segments.print(printer)?;
    print_all(printer, all)?;
    unless_same(all)
}

/// Prints the counts of all places.
fn print_all<'a, P: Printer<Fault = Failure<'a>>>(
    printer: &mut P,
    counts: Counts,
) -> Result<(), Failure<'a>>
    ensures { OnOk result (P.prints printer.old (counts_text scopes.All counts) printer.new) }
{
    let lines = CountLines {
        scope: Scope::All,
        counts,
    };
    print_told(printer, &lines)
}

/// Compares what the run wrote at each port with what was captured there, whole frames, and answers the counts of all ports.
fn compare_ports<'a, R: Files + Input + AllocGlobal + Print>(
    rt: &R,
    asked: Worked<'_, 'a>,
    told: Asked,
    segments: Segments,
) -> Result<(Segments, Counts), Failure<'a>>
    requires sent { told.clock.sent_delay ≤ 2000000000000000000 }
    requires received { told.clock.received_delay ≤ 2000000000000000000 }
{
    let manner = Manner {
        sameness: Sameness::Whole,
        ignores_reserved: asked.ignores,
    };
    let mut segments = segments;
    let mut all = Counts::none();
    for (index, name) in asked.ports.iter().enumerate() {
        let place = Place {
            tap: port_at(index),
            output: OutputFile::Port(index.saturating_add(1)),
            seen: *name,
        };
        let (behind, counts) = compare_place(rt, asked, place, &manner, told, segments)?;
        segments = behind;
        all = all.and(counts);
    }
    Ok((segments, all))
}

/// A place where a run writes.
#[derive(Clone, Copy)]
struct Place<'a> {
    tap: Tap,
    output: OutputFile,
    /// What was captured there.
    seen: &'a str,
}

/// Compares what the run wrote at a place with what was captured there, prints the counts, and answers them: none where there is
/// no capture. Each record is counted with its segment, too.
fn compare_place<'a, R: Files + Input + AllocGlobal + Print>(
    rt: &R,
    asked: Worked<'_, 'a>,
    place: Place<'a>,
    manner: &Manner,
    told: Asked,
    segments: Segments,
) -> Result<(Segments, Counts), Failure<'a>>
    requires sent { told.clock.sent_delay ≤ 2000000000000000000 }
    requires received { told.clock.received_delay ≤ 2000000000000000000 }
{
    if place.seen == NO_CAPTURE {
        tell_no_capture(rt, asked, place.tap)?;
        return Ok((segments, Counts::none()));
    }
    let mut segments = segments;
    segments.stand_at(place.tap, manner);
    compare_seen(rt, asked, place, manner, told.at(place.tap), segments)
}

/// Tells that there is no capture of a place.
fn tell_no_capture<'a, R: Files + Input + AllocGlobal + Print>(
    rt: &R,
    asked: Worked<'_, 'a>,
    tap: Tap,
) -> Result<(), Failure<'a>> {
    let mut output: StandardOutput<'_, 'a, R, R::File> = StandardOutput::new(rt, asked.shown);
    print_told(&mut output, &NoCapture(tap))
}

/// Compares the captures of a place at which the segments stand.
fn compare_seen<'a, R: Files + Input + AllocGlobal + Print>(
    rt: &R,
    asked: Worked<'_, 'a>,
    place: Place<'a>,
    manner: &Manner,
    told: Asked,
    segments: Segments,
) -> Result<(Segments, Counts), Failure<'a>>
    requires sent { told.clock.sent_delay ≤ 2000000000000000000 }
    requires received { told.clock.received_delay ≤ 2000000000000000000 }
{
    let mut worked = open_written(rt, asked.folder, place.output)?;
    let (_, mut seen) = open_seen(rt, place.seen)?;
    let output = output_at(rt, asked, place.tap, told.lists)?;
    let names = Names {
        sent: asked.folder,
        received: place.seen,
    };
    match compare_lent(
        told,
        manner,
        names,
        &mut worked,
        &mut seen,
        (output, segments),
    ) {
        Ok((_, segments, counts)) => Ok((segments, counts)),
        Err(failure) => Err(failure),
    }
}

/// Where a place is told: with the numbers of its records' events where they are listed.
fn output_at<'r, 'a, R: Files + Input + AllocGlobal + Print>(
    rt: &'r R,
    asked: Worked<'_, 'a>,
    tap: Tap,
    lists: bool,
) -> Result<StandardOutput<'r, 'a, R, R::File>, Failure<'a>> {
    if lists {
        open_output(rt, asked.shown, asked.folder, tap)
    } else {
        Ok(StandardOutput::new(rt, asked.shown))
    }
}

/// The tap of the port behind so many others; that of port 255 behind 254 and more.
fn port_at(index: usize) -> Tap
    ensures { result ≡ Port (min (index + 1) 255) }
{
    Tap::Port(index.saturating_add(1).min(255) as u8)
}

/// Whether a run wrote into the folder, and for as many ports as captures are named.
fn check_folder<'a, R: Files + AllocGlobal>(
    rt: &R,
    asked: Worked<'_, 'a>,
) -> Result<(), Failure<'a>> {
    needs(rt, asked.folder, OutputFile::Decisions)?;
    needs(rt, asked.folder, OutputFile::Underlay)?;
    let count = asked.ports.len();
    for index in 0..count {
        needs(rt, asked.folder, OutputFile::Port(index.saturating_add(1)))?;
    }
    let next = OutputFile::Port(count.saturating_add(1));
    if has(rt, asked.folder, next)? {
        return Err(Failure::Worked(asked.folder, WorkedFailure::Alone(next)));
    }
    Ok(())
}

/// That a folder has an output.
fn needs<'a, R: Files + AllocGlobal>(
    rt: &R,
    folder: &'a str,
    output: OutputFile,
) -> Result<(), Failure<'a>> {
    if has(rt, folder, output)? {
        Ok(())
    } else {
        Err(Failure::Worked(folder, WorkedFailure::Lacks(output)))
    }
}

/// Whether a folder has an output.
fn has<R: Files + AllocGlobal>(
    rt: &R,
    folder: &str,
    output: OutputFile,
) -> Result<bool, AllocError> {
    let path = path_of(rt.alloc(), folder, output)?;
    Ok(fs::metadata(rt, path.as_path()).is_ok())
}

/// That no capture is named for two places: the same name, of a file or of one of its interfaces.
fn check_twice<'a>(asked: Worked<'_, 'a>) -> Result<(), Failure<'a>> {
    for name in asked.ports {
        let is_underlay = *name == asked.underlay;
        if *name != NO_CAPTURE && (is_underlay || count_of(asked.ports, *name) > 1) {
            return Err(Failure::Worked(*name, WorkedFailure::Twice));
        }
    }
    Ok(())
}

/// How often a name is among some.
fn count_of(names: &[&str], name: &str) -> usize {
    let mut count: usize = 0;
    for other in names {
        if *other == name {
            count = count.saturating_add(1);
        }
    }
    count
}

/// The line of a place of which there is no capture.
#[derive(Clone, Copy)]
struct NoCapture(Tap);

impl fmt::Display for NoCapture {
    ghost output = { λ none. Some (tap_word none.0 ++ codes ": no capture\n") };

    fn fmt<W: fmt::Write>(&self, f: &mut fmt::Formatter<W>) -> fmt::Result {
        let tap = self.0;
        write!(f, "{tap}: no capture\n")
    }
}
