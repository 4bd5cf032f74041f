//! The lines of segments.
ghost use Rattle.std.specs.Prelude.{◌≡◌, ◌≤◌, ◌++◌, IfOk, OnOk, string_bytes};
ghost use Rattle.std.specs.List.{flat_map};
ghost use Rattle.endpoint_core.specs.Kept.{state_of};
ghost use Rattle.endpoint_core.specs.Step.{has_two_tunnels, passed};
ghost use Rattle.table_lines.specs.Lines.{entry_line, lines_among, segment_lines, shown_at, tables_text};

use crate::line::put_line;
use endpoint_core::Endpoint;
use filter_db::Entry;
use segment_set::SegmentSet;
use std::alloc::{AllocError, Global};
use wire::ether::{Mac, Vid};

/// The live entries of the segments that are asked for, one a line, the VIDs rising and within a segment the addresses: at a
/// moment, in nanoseconds, up to which nothing more comes, or without one at that of the endpoint's last step, and never before
/// that. Of each VID that is asked for the entries are listed once, where it has a segment. `AllocError`: there was no room for
/// the text.
pub fn tables_text(
    alloc: Global,
    endpoint: &Endpoint,
    segments: &SegmentSet,
    at: Option<u64>,
) -> Result<Vec<u8>, AllocError>
    ensures { IfOk result (λ text. text.items ≡ tables_text segments.now (shown_at at (state_of endpoint.now))) }
{
    let mut text = String::new(alloc);
    for number in 1..4095 {
        if let Some(vid) = Vid::new(number) {
            put_asked(alloc, &mut text, endpoint, segments, at, vid)?;
        }
    }
    Ok(text.into_bytes())
}

/// Puts the lines of a segment, where it is asked for.
fn put_asked(
    alloc: Global,
    text: &mut String,
    endpoint: &Endpoint,
    segments: &SegmentSet,
    at: Option<u64>,
    vid: Vid,
) -> Result<(), AllocError>
    ensures { OnOk result (string_bytes text.new ≡ string_bytes text.old
        ++ lines_among segments.now (shown_at at (state_of endpoint.now)) vid) }
{
    if !segments.has(Some(vid)) {
        return Ok(());
    }
    match at {
        Some(moment) => put_segment_at(alloc, text, endpoint, moment.max(endpoint.now()), vid),
        None => put_segment(alloc, text, endpoint, vid),
    }
}

/// Puts the lines of a segment.
fn put_segment(
    alloc: Global,
    text: &mut String,
    endpoint: &Endpoint,
    vid: Vid,
) -> Result<(), AllocError>
    ensures { OnOk result (string_bytes text.new ≡ string_bytes text.old ++ segment_lines (state_of endpoint.now) vid) }
{
    let rows = endpoint.entries(alloc, vid)?;
    put_rows(
        text,
        has_two_tunnels(endpoint, vid),
        endpoint.now(),
        vid,
        rows.as_slice(),
    )
}

/// Puts the lines of a segment at a moment that isn't before the last step's.
fn put_segment_at(
    alloc: Global,
    text: &mut String,
    endpoint: &Endpoint,
    moment: u64,
    vid: Vid,
) -> Result<(), AllocError>
    requires { (state_of endpoint.now).moment ≤ moment }
    ensures { OnOk result (string_bytes text.new ≡ string_bytes text.old ++ segment_lines (passed moment (state_of endpoint.now)) vid) }
{
    let rows = endpoint.entries_at(alloc, vid, moment)?;
    put_rows(
        text,
        has_two_tunnels(endpoint, vid),
        moment,
        vid,
        rows.as_slice(),
    )
}

/// Puts the lines of these entries at a moment.
fn put_rows(
    text: &mut String,
    two_tunnels: bool,
    now: u64,
    vid: Vid,
    rows: &[(Mac, Entry)],
) -> Result<(), AllocError>
    ensures { OnOk result (string_bytes text.new ≡ string_bytes text.old ++ flat_map (entry_line two_tunnels now vid) rows.now) }
{
    for (mac, entry) in rows {
        put_line(text, two_tunnels, now, vid, *mac, *entry)?;
    }
    Ok(())
}

/// Whether there is a segment of this VID, and it has two tunnels.
fn has_two_tunnels(endpoint: &Endpoint, vid: Vid) -> bool
    ensures { result ≡ has_two_tunnels (state_of endpoint.now).bridges.settings.overlay vid }
{
    let under = endpoint.under();
    under.has(vid) && under.segment(vid).tunnels.are_two()
}
