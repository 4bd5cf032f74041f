//! What is told of a run that is done, besides its outputs.
use crate::directions::{LeavesOut, records_at};
use crate::onlookers::LookedOn;
use crate::run::{Asked, AskedJob};
use json_lines::kinds::Kind;
use program_files::{Failure, OutputFile, Shown, print_shown};
use run_counts::{RunCounts, put_cuts};
use run_reports::Reports;
use runs_on_files::Ran;
use std::alloc::{AllocError, Global};
use std::rt::Files;
use talkers::Talkers;
use timeline::Tap;
use tunnel_traffic::TunnelTraffic;

/// Prints what a run told and counted. A part leaves its tables at the end and its counts in its folder before, and last what
/// it was made from, where all else was written: its objects are, if `written` is `Ok`.
pub(crate) fn tell_all<R: Files + AllocGlobal + Print, L: LeavesOut>(
    rt: &R,
    job: AskedJob<'_, '_, '_>,
    looked: Option<LookedOn<'_, '_>>,
    written: Result<(), Failure<'static>>,
    sieve: &L,
    ran: &mut Ran<R::File>,
) -> Result<(), Failure<'static>> {
    let Some(looked) = looked else {
        return match written {
            Ok(()) => ran.finish(rt),
            Err(failure) => Err(failure),
        };
    };
    let LookedOn {
        reports,
        counts,
        tunnels,
        talkers,
    } = looked;
    let (told, tables) = reported(rt.alloc(), reports)?;
    let summary = summary_of(rt.alloc(), counts, tunnels, sieve, ran.cut.as_slice())?;
    let talks = talks_text(rt.alloc(), talkers)?;
    let texts = PrintedTexts { tables, summary };
    let left = match written {
        Ok(()) => leave_all(rt, job.folder, job.asked, &texts, ran),
        Err(failure) => Err(failure),
    };
    let json = job.asked.json;
    left.and(print_as(rt, json, Kind::Events, told.as_slice()))
        .and(print_left_out(rt, json, sieve))
        .and(print_as(rt, json, Kind::Tables, texts.tables.as_slice()))
        .and(print_as(rt, json, Kind::Counts, texts.summary.as_slice()))
        .and(print_as(rt, json, Kind::Counts, talks.as_slice()))
}

/// What is printed of a run that a part leaves, too; empty, where it isn't asked for.
#[derive(Drop)]
struct PrintedTexts {
    tables: Vec<u8>,
    summary: Vec<u8>,
}

/// Who talked to whom, where that is asked for.
fn talks_text(alloc: Global, talkers: Option<Talkers>) -> Result<Vec<u8>, AllocError> {
    match talkers {
        Some(talkers) => talkers.text(alloc),
        None => Ok(Vec::new(alloc)),
    }
}

/// Writes the tables and the counts of a part into its folder, where it has one, as far as they are asked for, and then what it was
/// made from.
fn leave_all<R: Files + AllocGlobal>(
    rt: &R,
    folder: Option<&str>,
    asked: Asked<'_, '_>,
    texts: &PrintedTexts,
    ran: &mut Ran<R::File>,
) -> Result<(), Failure<'static>> {
    let folder = folder.unwrap_or("");
    if asked.tables {
        ran.leave(rt, folder, OutputFile::Tables, texts.tables.as_slice())?;
    }
    if asked.summary {
        ran.leave(rt, folder, OutputFile::Summary, texts.summary.as_slice())?;
    }
    ran.finish(rt)
}

/// What a run counted, and what passed by tunnels, where that is asked for.
fn summary_of<L: LeavesOut>(
    alloc: Global,
    counts: Option<RunCounts>,
    tunnels: Option<TunnelTraffic>,
    sieve: &L,
    cut: &[Tap],
) -> Result<Vec<u8>, AllocError> {
    let (Some(counts), Some(tunnels)) = (counts, tunnels) else {
        return Ok(Vec::new(alloc));
    };
    let records = records_at(&counts, sieve, cut);
    let mut cuts = String::new(alloc);
    put_cuts(&mut cuts, &records, cut)?;
    let mut text = counts.into_text(&[])?;
    text.extend_from_slice(cuts.as_bytes())?;
    let passed = tunnels.text(alloc)?;
    text.extend_from_slice(passed.as_slice())?;
    Ok(text)
}

/// Prints what a run told, where anything is printed.
pub(crate) fn print_told<R: AllocGlobal + Print, L: LeavesOut>(
    rt: &R,
    json: bool,
    looked: Option<LookedOn<'_, '_>>,
    sieve: &L,
) -> Result<(), Failure<'static>> {
    let Some(looked) = looked else {
        return Ok(());
    };
    let LookedOn { reports, .. } = looked;
    let (told, tables) = reported(rt.alloc(), reports)?;
    print_as(rt, json, Kind::Events, told.as_slice())
        .and(print_left_out(rt, json, sieve))
        .and(print_as(rt, json, Kind::Tables, tables.as_slice()))
}

/// What was told, and the tables at the end.
fn reported(
    alloc: Global,
    reports: Option<Reports<'_, '_>>,
) -> Result<(Vec<u8>, Vec<u8>), AllocError> {
    match reports {
        Some(reports) => reports.into_texts(),
        None => Ok((Vec::new(alloc), Vec::new(alloc))),
    }
}

/// Prints what is told of the records that were left out and are asked for by name.
fn print_left_out<R: AllocGlobal + Print, L: LeavesOut>(
    rt: &R,
    json: bool,
    sieve: &L,
) -> Result<(), Failure<'static>> {
    let told = sieve.told()?;
    print_as(rt, json, Kind::Events, told)
}

/// Prints lines of a kind, as JSON objects where that is asked for.
fn print_as<R: AllocGlobal + Print>(
    rt: &R,
    json: bool,
    kind: Kind,
    text: &[u8],
) -> Result<(), Failure<'static>> {
    print_shown(rt, Shown::of(json, kind), text)
}

/// Says of each name that no event had, and no record that was left out, that none did, but for the last, which is the failure.
pub(crate) fn tell_missing<'a, L: LeavesOut>(
    rt: &impl Eprint,
    names: &[&'a str],
    looked: &Option<LookedOn<'_, '_>>,
    sieve: &L,
) -> Result<(), Failure<'a>> {
    let Some(
        LookedOn {
            reports: Some(reports),
            ..
        },
    ) = looked
    else {
        return Ok(());
    };
    let mut missing = Ok(());
    for (place, name) in names.iter().enumerate() {
        if !reports.is_found(place) && !sieve.is_named(place) {
            if let Err(failure) = &missing {
                let _ = eprintln!(rt; "{failure}");
            }
            missing = Err(Failure::NoEvent(*name));
        }
    }
    missing
}
