//! A look at what a run is to read, before it does.
//!
//! Each capture is looked at to its end before a fault of the next is told, so that one call tells of all; it ends with the
//! first fault in the order of its lines.
use crate::echoes::{RecordCounts, print_echoes};
use crate::foreseen::foresee;
use crate::swapped::swapped_lines;
use capture_run::RunFault;
use capture_survey::{Report, SurveyFault, survey_capture};
use config_text::SettingsFault;
use fault_notes::{missing_interface, open_files_line};
use overlay_config::{Settings, TimedChange};
use pcap::kind::FileKind;
use pcap::text::CaptureFault;
use program_files::{
    Failure, Names, OneLine, SeenCapture, Shown, open_seen, print_shown, read_file, read_if_given,
};
use runs_on_files::Texts;
use std::fmt::Write;
use std::io::{Input, Read};
use std::rt::Files;
use text_advice::{TextKind, advice, syntax_error_at};
use text_calls::{check_read, read_texts, tap_of};
use timeline::Tap;

/// A text that was read, with its file's name.
#[derive(Clone, Copy)]
struct Named<'t, 'a> {
    name: &'a str,
    text: &'t [u8],
}

/// What a look found, and whether all of it was told.
#[derive(Drop)]
struct Seen<'a> {
    /// The first fault that a run would meet.
    found: Result<(), Failure<'a>>,
    /// The first that couldn't be printed.
    told: Result<(), Failure<'static>>,
}

impl<'a> Seen<'a> {
    /// What was seen at a later look too.
    fn and(self, later: Seen<'a>) -> Seen<'a> {
        Seen {
            found: self.found.and(later.found),
            told: self.told.and(later.told),
        }
    }
}

/// Looks at the texts and the captures, and prints what is in them: where and why a text is refused; which changes will be
/// refused; what each capture holds. The first fault is answered that a run would meet; and only where there is none, that
/// something couldn't be printed.
#[inline(never)]
pub fn check<'a, R: Files + Input + AllocGlobal + Print>(
    rt: &R,
    shown: Shown,
    settings: &'a str,
    changes: Option<&'a str>,
    underlay: Option<&'a str>,
    ports: &[&'a str],
) -> Result<(), Failure<'a>> {
    let texts = Texts {
        settings: read_file(rt, settings)?,
        changes: read_if_given(rt, changes)?,
    };
    let mut counts = RecordCounts::new();
    let seen_texts = look_at_texts(rt, shown, settings, changes, &texts, ports.len())?;
    let seen = seen_texts.and(look_at_captures(rt, shown, underlay, ports, &mut counts));
    let Some(underlay) = underlay else {
        return seen.found.and(seen.told);
    };
    let echoes = match seen.found {
        Ok(()) => {
            let names = Names {
                settings,
                changes,
                underlay,
                ports,
                digests: None,
            };
            print_echoes(rt, shown, names, &texts, &counts)
        }
        Err(_) => Ok(()),
    };
    let swapped = print_swapped(rt, shown, texts.settings.as_slice(), underlay, ports);
    seen.found.and(seen.told).and(echoes).and(swapped)
}

/// Prints what is in the texts of these names, where so many ports' captures are named. It answers the fault of a text that is
/// refused.
fn look_at_texts<R: Files + AllocGlobal + Print>(
    rt: &R,
    shown: Shown,
    settings: &str,
    changes: Option<&str>,
    texts: &Texts,
    captures: usize,
) -> Result<Seen<'static>, Failure<'static>> {
    let settings = Named {
        name: settings,
        text: texts.settings.as_slice(),
    };
    let changes = Named {
        name: changes.unwrap_or(""),
        text: texts.changes.as_slice(),
    };
    let (read, told) = match read_texts(rt.alloc(), settings.text, changes.text) {
        Ok(read) => read,
        Err(fault) => {
            // Where it can't be printed, the fault still tells that and why the text is refused.
            let _ = print_refused(rt, shown, settings, changes, &fault);
            return Err(Failure::Run(fault));
        }
    };
    let counted = print_counts(rt, shown, &read, told.as_slice()).and(print_open_files(
        rt, shown, &read,
    ));
    Ok(Seen {
        found: see_count(read.ports().len(), captures),
        told: counted.and(print_foreseen(rt, shown, read, told)),
    })
}

/// Sees that so many ports have as many captures, unless no port's capture is named.
fn see_count(ports: usize, captures: usize) -> Result<(), Failure<'static>> {
    if captures == 0 || captures == ports {
        Ok(())
    } else {
        Err(Failure::Run(RunFault::PortCount))
    }
}

/// Prints how many ports, segments and changes there are.
fn print_counts<R: AllocGlobal + Print>(
    rt: &R,
    shown: Shown,
    settings: &Settings,
    changes: &[TimedChange],
) -> Result<(), Failure<'static>> {
    let line = check_read(rt.alloc(), settings, changes)?;
    print_shown(rt, shown, line.as_slice())
}

/// Prints how many files a run with these settings opens at once, where so many can't be open.
fn print_open_files<R: Files + AllocGlobal + Print>(
    rt: &R,
    shown: Shown,
    settings: &Settings,
) -> Result<(), Failure<'static>> {
    match open_files_line(rt, settings.ports().len())? {
        Some(line) => print_shown(rt, shown, line.as_bytes()),
        None => Ok(()),
    }
}

/// Prints where the text is refused that a fault tells of, and why.
fn print_refused<R: AllocGlobal + Print>(
    rt: &R,
    shown: Shown,
    settings: Named<'_, '_>,
    changes: Named<'_, '_>,
    fault: &RunFault,
) -> Result<(), Failure<'static>> {
    match fault {
        RunFault::Settings(fault) => print_advice(rt, shown, TextKind::Settings, settings, fault),
        RunFault::Changes(fault) => print_advice(rt, shown, TextKind::Changes, changes, fault),
        _ => Ok(()),
    }
}

/// Prints where a text is refused, and why.
fn print_advice<R: AllocGlobal + Print>(
    rt: &R,
    shown: Shown,
    kind: TextKind,
    named: Named<'_, '_>,
    fault: &SettingsFault,
) -> Result<(), Failure<'static>> {
    let at = syntax_error_at(rt.alloc(), named.text)?;
    let line = OneLine(named.name);
    let name = format!(in rt.alloc(); "{line}")?;
    let told = advice(
        rt.alloc(),
        kind,
        name.as_str(),
        named.text,
        fault,
        at.as_ref(),
    )?;
    print_shown(rt, shown, told.as_slice())
}

/// Prints the changes that the settings will refuse at their moments.
fn print_foreseen<R: AllocGlobal + Print>(
    rt: &R,
    shown: Shown,
    settings: Settings,
    changes: Vec<TimedChange>,
) -> Result<(), Failure<'static>> {
    let mut text = String::new(rt.alloc());
    for refusal in &foresee(rt.alloc(), settings, changes.as_slice())? {
        writeln!(text, "{refusal}")?;
    }
    print_shown(rt, shown, text.as_bytes())
}

/// Prints what is in each capture that is named, ports rising and then the underlay.
fn look_at_captures<'a, R: Files + Input + AllocGlobal + Print>(
    rt: &R,
    shown: Shown,
    underlay: Option<&'a str>,
    ports: &[&'a str],
    counts: &mut RecordCounts,
) -> Seen<'a> {
    let mut seen = Seen {
        found: Ok(()),
        told: Ok(()),
    };
    for (index, name) in ports.iter().enumerate() {
        seen = seen.and(look_at_capture(rt, shown, tap_of(index), *name, counts));
    }
    match underlay {
        Some(name) => seen.and(look_at_capture(rt, shown, Tap::Underlay, name, counts)),
        None => seen,
    }
}

/// Prints which captures look as if they stood in each other's place.
fn print_swapped<R: Files + Input + AllocGlobal + Print>(
    rt: &R,
    shown: Shown,
    settings: &[u8],
    underlay: &str,
    ports: &[&str],
) -> Result<(), Failure<'static>> {
    let lines = swapped_lines(rt, settings, underlay, ports)?;
    print_shown(rt, shown, lines.as_bytes())
}

/// Prints what is in a capture, and counts its records.
fn look_at_capture<'a, R: Files + Input + AllocGlobal + Print>(
    rt: &R,
    shown: Shown,
    tap: Tap,
    name: &'a str,
    counts: &mut RecordCounts,
) -> Seen<'a> {
    let (kind, mut capture) = match open_seen(rt, name) {
        Ok(seen) => seen,
        Err(failure) => {
            return Seen {
                found: Err(failure),
                told: Ok(()),
            };
        }
    };
    match survey_capture(&mut capture, tap) {
        Ok(survey) => {
            counts.put(tap, survey.tally.records);
            let report = Report {
                tap,
                is_pcapng: kind == FileKind::Pcapng,
                left_out: capture.input().left_out(),
                survey,
            };
            Seen {
                found: Ok(()),
                told: print_report(rt, shown, report).and(print_missing(rt, shown, name)),
            }
        }
        Err(fault) => Seen {
            found: Err(failure_of(tap, name, &capture, fault)),
            told: print_kind(rt, shown, tap, kind, fault),
        },
    }
}

/// Prints a report.
fn print_report<R: AllocGlobal + Print>(
    rt: &R,
    shown: Shown,
    report: Report,
) -> Result<(), Failure<'static>> {
    let text = format!(in rt.alloc(); "{report}")?;
    print_shown(rt, shown, text.as_bytes())
}

/// Prints which interfaces a capture has, where none of them is asked for by its name.
fn print_missing<R: Files + AllocGlobal + Print>(
    rt: &R,
    shown: Shown,
    name: &str,
) -> Result<(), Failure<'static>> {
    match missing_interface(rt, name)? {
        Some(line) => print_shown(rt, shown, line.as_bytes()),
        None => Ok(()),
    }
}

/// Prints what a file is, where it is no capture that is read.
fn print_kind<R: AllocGlobal + Print>(
    rt: &R,
    shown: Shown,
    tap: Tap,
    kind: FileKind,
    fault: SurveyFault,
) -> Result<(), Failure<'static>> {
    if fault != SurveyFault::Header(CaptureFault::NotPcap) {
        return Ok(());
    }
    let text = format!(in rt.alloc(); "{tap}: {kind}\n")?;
    print_shown(rt, shown, text.as_bytes())
}

/// A fault of a capture as a run would tell it.
fn failure_of<'a, F: Read + Drop, I: Read + Drop>(
    tap: Tap,
    name: &'a str,
    capture: &SeenCapture<'_, F, I>,
    fault: SurveyFault,
) -> Failure<'a> {
    match fault {
        SurveyFault::Header(fault) => Failure::Run(RunFault::Capture(tap, fault)),
        SurveyFault::Record(number, fault) => Failure::Run(RunFault::Record(tap, number, fault)),
        SurveyFault::Read => match capture.input().fault() {
            Some(fault) => Failure::Pcapng(tap, fault),
            None => Failure::Read(name),
        },
    }
}
