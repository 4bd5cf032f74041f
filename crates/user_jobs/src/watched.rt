//! A run with full tables and many changes, at which whoever asks for stories, tables and counts looks on.

use crate::devices::{open, open_all, run};
use crate::digest::Digest;
use crate::draws::Draws;
use crate::fault::{JobFault, Stage};
use crate::traffic::{Captures, FIRST_VID, PORTS, SEGMENTS, Traffic, switch_settings};
use overlay_config::{changes_of, settings_of};
use pcapng_input::Selection;
use run_counts::RunCounts;
use run_reports::{Onlooker, Reports};
use segment_set::SegmentSet;
use std::alloc::{AllocError, Global};
use std::fmt::Write;

/// How many entries and stations each segment has: 64 segments fill a pool of 65,536.
const STATIONS: u32 = 1024;

/// How many names are asked for, and one change comes for so many events.
const NAMES: u32 = 64;

const EVENTS_A_CHANGE: u32 = 32;

/// Runs with changes, and what is told of them besides.
pub fn watched(
    alloc: Global,
    digest: &mut Digest,
    draws: Draws,
    rounds: u32,
    events: u32,
) -> Result<(), JobFault> {
    let mut draws = draws;
    let mut captures = Captures::new(alloc, PORTS, events)?;
    let mut traffic = Traffic::new(alloc, draws, STATIONS)?;
    for _round in 0..rounds {
        traffic.put(&mut captures, events);
        watched_run(
            alloc,
            digest,
            &mut draws,
            &captures,
            events,
            traffic.moment(),
        )?;
    }
    Ok(())
}

/// A run up to a moment with changes, and what is told of it besides.
fn watched_run(
    alloc: Global,
    digest: &mut Digest,
    draws: &mut Draws,
    captures: &Captures,
    events: u32,
    end: u64,
) -> Result<(), JobFault> {
    let settings = switch_settings(alloc, STATIONS)?;
    let changes = changes_text(alloc, draws, events / EVENTS_A_CHANGE, end)?;
    // The program looks at the texts before it opens anything.
    if settings_of(alloc, settings.as_bytes()).is_err() {
        return Err(JobFault::Failed(Stage::Settings));
    }
    let Ok(told) = changes_of(alloc, changes.as_bytes()) else {
        return Err(JobFault::Failed(Stage::Changes));
    };
    let names = names_text(alloc, draws, events)?;
    let mut asked = Vec::new(alloc);
    for name in &names {
        asked.push(name.as_str())?;
    }
    let segments = SegmentSet::all();
    let reports = Reports::new(
        alloc,
        asked.as_slice(),
        told.as_slice(),
        &segments,
        Some(end / 2),
        true,
    )?;
    let mut onlooker = Onlooker {
        reports,
        counts: Some(RunCounts::new(alloc)),
    };
    let ports = open_all(alloc, captures, PORTS, false)?;
    let underlay = open(alloc, captures.underlay(), Selection::All, false)?;
    run(
        alloc,
        digest,
        settings.as_bytes(),
        changes.as_bytes(),
        ports,
        underlay,
        &mut onlooker,
    )?;
    add_told(digest, onlooker)
}

/// Adds what was told.
pub fn add_told(digest: &mut Digest, onlooker: Onlooker<'_, '_>) -> Result<(), JobFault> {
    let Onlooker { reports, counts } = onlooker;
    for is_found in reports.found() {
        digest.add_number(u64::from(*is_found));
    }
    let (stories, tables) = reports.into_texts()?;
    digest.add(stories.as_slice());
    digest.add(tables.as_slice());
    if let Some(counts) = counts {
        digest.add(counts.into_text(&[])?.as_slice());
    }
    Ok(())
}

/// Names of events, half of them by their number in the run and half by their source.
fn names_text(alloc: Global, draws: &mut Draws, events: u32) -> Result<Vec<String>, AllocError> {
    let mut names = Vec::new(alloc);
    for name in 0..NAMES {
        let number = draws.below(events).saturating_add(1);
        let part = number / 18;
        let port = draws.below(8).saturating_add(1);
        let text = match name % 4 {
            0 | 2 => format!(in alloc; "{number}")?,
            1 => format!(in alloc; "p{port}:{part}")?,
            _ => format!(in alloc; "u:{part}")?,
        };
        names.push(text)?;
    }
    Ok(names)
}

/// So many changes of every kind, up to a moment.
fn changes_text(
    alloc: Global,
    draws: &mut Draws,
    count: u32,
    end: u64,
) -> Result<String, AllocError> {
    let mut text = String::new(alloc);
    let step = end / u64::from(count.max(1));
    for number in 0..count {
        let at = u64::from(number).saturating_mul(step);
        put_change(&mut text, draws, number, at)?;
    }
    Ok(text)
}

/// Puts a change. What one of them adds another mostly takes away.
fn put_change(
    text: &mut String,
    draws: &mut Draws,
    number: u32,
    at: u64,
) -> Result<(), AllocError> {
    let vid = FIRST_VID.saturating_add(draws.below(SEGMENTS));
    let other = draws.below(90).saturating_add(10);
    let port = draws.below(8).saturating_add(1);
    let round = number / 16;
    write!(text, "[[change]]\nat = {at}\nkind = ")?;
    match number % 16 {
        0 => write!(
            text,
            "\"add_flood\"\nvid = {vid}\naddr = \"192.0.2.{other}\"\n"
        ),
        1 => write!(
            text,
            "\"remove_flood\"\nvid = {vid}\naddr = \"192.0.2.12\"\n"
        ),
        2 | 3 => write!(
            text,
            "\"fix\"\nvid = {vid}\nmac = \"02:0a:00:00:00:{other}\"\nport = {port}\n"
        ),
        4 => write!(
            text,
            "\"fix\"\nvid = {vid}\nmac = \"02:0b:00:00:00:{other}\"\nremote = \"2001:db8::{other}\"\n"
        ),
        5 => write!(
            text,
            "\"unfix\"\nvid = {vid}\nmac = \"02:0a:00:00:00:{other}\"\n"
        ),
        6 => write!(text, "\"set_ageing\"\nvid = {vid}\nseconds = 3{other}\n"),
        7 => write!(
            text,
            "\"set_learning\"\nvid = {vid}\non = {}\n",
            draws.below(8) > 0
        ),
        8 => write!(
            text,
            "\"set_member\"\nvid = {vid}\nport = {port}\negress = \"tagged\"\n"
        ),
        9 => write!(
            text,
            "\"set_member\"\nvid = {vid}\nport = {port}\negress = \"none\"\n"
        ),
        10 if round % 8 == 0 => write!(text, "\"port_down\"\nport = {port}\n"),
        10 | 11 => write!(text, "\"port_up\"\nport = {port}\n"),
        12 if round % 8 == 0 => write!(text, "\"flush\"\nvid = {vid}\n"),
        12 | 13 => write!(text, "\"set_limit\"\nvid = {vid}\nlimit = 1024\n"),
        14 => write!(
            text,
            "\"add_segment\"\nvid = 4{other}\nvni = 9{other}\ntunnel = \"vxlan\"\nlimit = {other}\n"
        ),
        _ => write!(text, "\"remove_segment\"\nvid = 4{other}\n"),
    }
}
