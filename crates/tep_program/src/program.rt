//! What the program does with its words.
ghost use Rattle.std.specs.Prelude.{◌≡◌, ◌≤◌, option_map};
ghost use Rattle.clap.specs.Walk.{texts};
ghost use Rattle.command_line.specs.Meaning.{HasDepth, meaning_of};
ghost use Rattle.program_files.specs.Status.{failure_status_of};
ghost use Rattle.tep_program.specs.Status.{IsDoneStatus, IsStatusOf, first_no_event, no_event_in};

use capture_run::{RunFault, of_settings};
use check_on_files::check;
use clap::error::ErrorKind as Refusal;
use command_line::{Line, LineFault, line_of};
use compare_on_files::{Compared, Worked, compare, compare_worked, no_table, no_table_name};
use explanation::sample::sample;
use explanation::{Values, explain_bytes};
use fabric_on_files::check_fabric;
use fault_notes::{
    has_unended, tell_causes, tell_failed_besides, tell_next_step, tell_notes, tell_open_files,
    tell_unended,
};
use json_lines::kinds::Kind;
use merge_on_files::{TextsAsked, merge};
use overlay_config::migrate;
use page_on_files::make_page;
use program_files::{
    ClosedStreams, FailedOutputs, Failure, Names, OutputFile, Shown, is_lost, print_shown,
    print_text, read_file, read_underlay,
};
use run_progress::Screen;
use run_reports::is_event_name;
use runs_on_files::print_digests;
use split_on_files::split;
use std::alloc::{AllocError, Global};
use std::env;
use std::io::{ErrorKind, Input};
use std::process::ExitCode;
use std::rt::{Env, Files};
use std::time::Clock;
use told_runs::{Asked, run_and_tell, within_of};

/// The exit status where the words are refused.
const WORDS_REFUSED: u8 = 2;

/// Gets the words of the process, and does what they ask for.
pub fn start<R: Env + Files + Input + AllocGlobal + Print + Eprint + Clock + Screen>(
    rt: &R,
) -> ExitCode {
    let _streams = ClosedStreams::fill(rt);
    let status = match env::args(rt) {
        Ok(words) => status(rt, words),
        Err(error) if error.kind() == ErrorKind::OutOfMemory => Err(AllocError),
        Err(_) => Ok(words_refused(rt, &LineFault::NoValue)),
    };
    ExitCode::from(status.unwrap_or_else(|error| stopped(rt, &Failure::from(error))))
}

/// The exit status, or that memory ran out before the words were read.
fn status<R: Files + Input + AllocGlobal + Print + Eprint + Clock + Screen>(
    rt: &R,
    words: env::Args<Global>,
) -> Result<u8, AllocError> {
    let words: Vec<String> = words.collect(rt.alloc())?;
    let mut texts = Vec::new(rt.alloc());
    for word in &words {
        texts.push(word.as_str())?;
    }
    Ok(run(rt, texts.as_slice()))
}

/// Does what the words ask for, the program's name first, and answers the exit status: 0 where it is done, 1 where a text
/// or a capture is refused, 2 where the words are, and 3 for want of memory or a read or a write that failed.
pub fn run<'a, R: Files + Input + AllocGlobal + Print + Eprint + Clock + Screen>(
    rt: &R,
    words: &'a [&'a str],
) -> u8
    ensures { IsStatusOf (texts words.entry.now) result }
{
    match line_of(rt.alloc(), words) {
        Ok(line) => match no_event_name(&line) {
            Some(name) => no_event(rt, name),
            None => match no_table_name(&line) {
                Some(name) => no_table(rt, name),
                None => performed(rt, &line),
            },
        },
        Err(LineFault::OutOfMemory) => stopped(rt, &Failure::Run(RunFault::OutOfMemory)),
        Err(LineFault::NoValue) => words_refused(rt, &LineFault::NoValue),
        Err(LineFault::Unpaired) => words_refused(rt, &LineFault::Unpaired),
        Err(LineFault::NoFolder) => words_refused(rt, &LineFault::NoFolder),
        Err(LineFault::Ignored) => words_refused(rt, &LineFault::Ignored),
        Err(LineFault::NoCheck) => words_refused(rt, &LineFault::NoCheck),
        Err(LineFault::NoCapture) => words_refused(rt, &LineFault::NoCapture),
        Err(LineFault::InputTwice) => words_refused(rt, &LineFault::InputTwice),
        Err(LineFault::NoSegments) => words_refused(rt, &LineFault::NoSegments),
        Err(LineFault::OutputTwice) => words_refused(rt, &LineFault::OutputTwice),
        Err(LineFault::Refused(error)) => {
            let is_lost = is_lost(error.print(rt));
            match error.kind() {
                Refusal::DisplayHelp | Refusal::DisplayVersion if is_lost => {
                    stopped(rt, &Failure::Write(OutputFile::Stdout))
                }
                Refusal::DisplayHelp | Refusal::DisplayVersion => 0,
                _ => WORDS_REFUSED,
            }
        }
    }
}

/// The first name that a line asks for and that no event can have.
fn no_event_name<'a>(line: &Line<'a>) -> Option<&'a str>
    ensures { option_map (λ name. name.now) result ≡ no_event_in (meaning_of line.now) }
{
    match line {
        Line::Run { why, .. } => first_no_event(why.as_slice()),
        _ => None,
    }
}

/// The first of these names that no event can have.
fn first_no_event<'a>(names: &[&'a str]) -> Option<&'a str>
    ensures { option_map (λ name. name.now) result ≡ first_no_event (texts names.now) }
{
    for name in names {
        if !is_event_name(*name) {
            return Some(*name);
        }
    }
    None
}

/// Says that no event can have a name.
fn no_event(rt: &impl Eprint, name: &str) -> u8
    ensures { result ≡ 2 }
{
    let _ = eprintln!(rt;
        "error: no event can be called '{name}': --why takes 7, p2:7, u:13, c:1, drop:30, drop:any or mac:02:00:00:00:00:01"
    );
    WORDS_REFUSED
}

/// The exit status of what a line asks for, which is done.
fn performed<'a, R: Files + Input + AllocGlobal + Print + Eprint + Clock + Screen>(
    rt: &R,
    line: &Line<'a>,
) -> u8
    requires { HasDepth line.now }
    ensures { IsDoneStatus result }
{
    let mut failed = FailedOutputs::new();
    let unended = has_unended(rt, line);
    match perform(rt, line, &mut failed) {
        Ok(()) => {
            tell_unended(rt, line, unended);
            tell_notes(rt, line);
            0
        }
        Err(failure) => {
            let status = stopped(rt, &failure);
            tell_causes(rt, line, &failure);
            tell_unended(rt, line, unended);
            tell_failed_besides(rt, line, &failure, failed.as_slice());
            tell_next_step(rt, line, &failure);
            tell_open_files(rt, line, &failure);
            status
        }
    }
}

/// Says why the words are refused.
fn words_refused(rt: &impl Eprint, fault: &LineFault) -> u8
    ensures { result ≡ 2 }
{
    let _ = eprintln!(rt; "{fault}");
    WORDS_REFUSED
}

/// Says why the program gives up.
fn stopped(rt: &impl Eprint, failure: &Failure<'_>) -> u8
    ensures { result ≡ failure_status_of failure.now }
{
    let _ = eprintln!(rt; "{failure}");
    failure.status()
}

/// Does what a line asks for.
fn perform<'a, R: Files + Input + AllocGlobal + Print + Eprint + Clock + Screen>(
    rt: &R,
    line: &Line<'a>,
    failed: &mut FailedOutputs,
) -> Result<(), Failure<'a>>
    requires { HasDepth line.now }
{
    match line {
        Line::Sample => print_sample(rt),
        Line::Check {
            settings,
            changes,
            underlay,
            ports,
            json,
        } => check(
            rt,
            Shown::of(*json, Kind::Looks),
            *settings,
            *changes,
            *underlay,
            ports.as_slice(),
        ),
        Line::Run {
            settings,
            changes,
            underlay,
            out,
            ports,
            tables,
            tables_at,
            why,
            summary,
            talkers,
            segments,
            digests,
            both,
            within,
            list,
            json,
            quiet,
            pcapng,
        } => {
            let names = Names {
                settings: *settings,
                changes: *changes,
                underlay: *underlay,
                ports: ports.as_slice(),
                digests: *digests,
            };
            let asked = Asked {
                why: why.as_slice(),
                tables_at: *tables_at,
                tables: *tables,
                summary: *summary,
                talkers: *talkers,
                segments: *segments,
                within: within_of(*both || list.is_some(), *within)?,
                list: *list,
                json: *json,
                quiet: *quiet,
                pcapng: *pcapng,
            };
            run_and_tell(rt, names, *out, asked, failed)
        }
        Line::Explain {
            settings,
            depth,
            values,
            capture,
            json,
        } => explain(
            rt,
            Shown::of(*json, Kind::Events),
            *settings,
            *depth,
            *values,
            *capture,
        ),
        Line::Migrate { settings } => print_migrated(rt, *settings),
        Line::Digest { underlay, ports } => print_digests(rt, *underlay, ports.as_slice()),
        Line::Merge {
            out,
            parts,
            tables,
            summary,
            json,
        } => {
            let asked = TextsAsked {
                tables: *tables,
                summary: *summary,
            };
            merge_and_tell(rt, *out, parts.as_slice(), asked, *json, failed)
        }
        Line::Split { out, capture } => split(rt, *out, *capture),
        Line::Report { folder, page } => make_page(rt, *folder, *page),
        Line::Fabric { leaves } => check_fabric(rt, leaves.as_slice()),
        Line::Compare {
            sent,
            received,
            within,
            shift,
            lists,
            by,
            ignores,
            json,
        } => {
            let asked = Compared {
                sent: *sent,
                received: *received,
                within: *within,
                shift: *shift,
                lists: *lists,
                by: *by,
                ignores: *ignores,
                shown: Shown::of(*json, Kind::Compared),
            };
            compare(rt, asked)
        }
        Line::CompareWorked {
            worked,
            underlay,
            ports,
            within,
            shift,
            settings,
            strict,
            lists,
            by,
            ignores,
            json,
        } => {
            let asked = Worked {
                folder: *worked,
                underlay: *underlay,
                ports: ports.as_slice(),
                within: *within,
                shift: *shift,
                settings: *settings,
                strict: *strict,
                lists: *lists,
                by: *by,
                ignores: *ignores,
                shown: Shown::of(*json, Kind::Compared),
            };
            compare_worked(rt, asked)
        }
    }
}

/// Makes parts the whole run, and prints what it tells besides.
#[inline(never)]
fn merge_and_tell<'a, R: Files + AllocGlobal + Print>(
    rt: &R,
    out: &str,
    folders: &[&'a str],
    asked: TextsAsked,
    json: bool,
    failed: &mut FailedOutputs,
) -> Result<(), Failure<'a>> {
    match merge(rt, out, folders, asked, failed) {
        Ok(told) => print_shown(rt, Shown::of(json, Kind::Tables), told.tables.as_slice()).and(
            print_shown(rt, Shown::of(json, Kind::Counts), told.summary.as_slice()),
        ),
        Err(failure) => Err(failure),
    }
}

/// Prints the decision lines of the sample.
#[inline(never)]
fn print_sample<R: AllocGlobal + Print>(rt: &R) -> Result<(), Failure<'static>> {
    let lines = sample(rt.alloc())?;
    print_text(rt, lines.as_slice())
}

/// Prints a settings text as one of version 2.
#[inline(never)]
fn print_migrated<'a, R: Files + AllocGlobal + Print>(
    rt: &R,
    settings: &'a str,
) -> Result<(), Failure<'a>> {
    let settings = read_file(rt, settings)?;
    match migrate(rt.alloc(), settings.as_slice()) {
        Ok(text) => print_text(rt, text.as_slice()),
        Err(fault) => Err(Failure::Run(of_settings(fault))),
    }
}

/// Prints how the packets of a capture are made up, and what is decided of them.
#[inline(never)]
fn explain<'a, R: Files + Input + AllocGlobal + Print>(
    rt: &R,
    shown: Shown,
    settings: &'a str,
    depth: u8,
    values: bool,
    capture: &'a str,
) -> Result<(), Failure<'a>>
    requires low { 1 ≤ depth }
    requires high { depth ≤ 4 }
{
    let settings = read_file(rt, settings)?;
    let capture = read_underlay(rt, capture)?;
    let text = explain_bytes(
        rt.alloc(),
        settings.as_slice(),
        capture.as_slice(),
        usize::from(depth),
        if values {
            Values::Shown
        } else {
            Values::Hidden
        },
    )?;
    print_shown(rt, shown, text.as_slice())
}
