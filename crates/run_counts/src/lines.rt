//! The lines of a summary.
ghost use Rattle.std.specs.Prelude.{◌≡◌, ◌++◌, OnOk, codes, string_bytes};
ghost use Rattle.std.specs.List.{flat_map};
ghost use Rattle.decision_lines.specs.Lines.{cut_line};
ghost use Rattle.run_counts.specs.Keeping.{flow_in, passed, refusals_in};
ghost use Rattle.run_counts.specs.Summary.{changes_text, cuts_text, dropped_line, flow_line, partial_line, place_lines};
ghost use Rattle.run_counts.specs.Summary.{places_text, refused_line, segment_lines, segment_word, segments_text, sent_line};

use crate::counted::Counted;
use crate::flow::{Flow, Flows};
use crate::refusals::{Refusals, refused_for};
use endpoint_core::state::{CHANGE_FAULTS, ChangeFault};
use std::alloc::AllocError;
use std::fmt::Write;
use timeline::Tap;
use wire::ether::{REASONS, Reason, Vid};

/// Puts the lines of all segments, their VIDs rising, and then those of none.
pub fn put_segments<C: Counted>(text: &mut String, counts: &C) -> Result<(), AllocError>
    ensures { OnOk result (string_bytes text.new ≡ string_bytes text.old ++ segments_text (C.counts counts.now)) }
{
    for number in 1..4095 {
        if let Some(vid) = Vid::new(number) {
            put_segment(text, counts, &Some(vid))?;
        }
    }
    put_segment(text, counts, &None)
}

/// Puts the lines of a segment, or of none.
fn put_segment<C: Counted>(
    text: &mut String,
    counts: &C,
    segment: &Option<Vid>,
) -> Result<(), AllocError>
    ensures { OnOk result (string_bytes text.new ≡ string_bytes text.old ++ segment_lines (C.counts counts.now) segment.now) }
{
    put_sent(text, counts, segment)?;
    put_drops(text, counts, segment, &REASONS)
}

/// Puts what was dropped there, reason by reason.
fn put_drops<C: Counted>(
    text: &mut String,
    counts: &C,
    segment: &Option<Vid>,
    reasons: &[Reason],
) -> Result<(), AllocError>
    ensures { OnOk result (string_bytes text.new
        ≡ string_bytes text.old ++ flat_map (dropped_line (C.counts counts.now) segment.now) reasons.now) }
{
    for reason in reasons {
        put_dropped(text, counts, segment, *reason)?;
    }
    Ok(())
}

/// Puts what was sent in a segment, or in none.
#[tactic(auto, unfolding(crate::specs::Summary::sent_line, crate::specs::Summary::count_line))]
fn put_sent<C: Counted>(
    text: &mut String,
    counts: &C,
    segment: &Option<Vid>,
) -> Result<(), AllocError>
    ensures { OnOk result (string_bytes text.new ≡ string_bytes text.old ++ sent_line (C.counts counts.now) segment.now) }
{
    let count = counts.count(*segment, 0);
    if count == 0 {
        return Ok(());
    }
    put_front(text, segment)?;
    writeln!(text, "sent {count}")
}

/// Puts what was dropped there for a reason, or not sent for it.
#[tactic(auto, unfolding(crate::specs::Summary::dropped_line, crate::specs::Summary::count_line))]
fn put_dropped<C: Counted>(
    text: &mut String,
    counts: &C,
    segment: &Option<Vid>,
    reason: Reason,
) -> Result<(), AllocError>
    ensures { OnOk result (string_bytes text.new ≡ string_bytes text.old ++ dropped_line (C.counts counts.now) segment.now reason) }
{
    let number = reason.number();
    let count = counts.count(*segment, number);
    if count == 0 {
        return Ok(());
    }
    let name = reason.name();
    put_front(text, segment)?;
    writeln!(text, "dropped {number} {name} {count}")
}

/// Puts the words in front of a segment's count.
fn put_front(text: &mut String, segment: &Option<Vid>) -> Result<(), AllocError>
    ensures { OnOk result (string_bytes text.new ≡ string_bytes text.old ++ (codes "segment " ++ segment_word segment.now ++ codes " ")) }
{
    match segment {
        None => text.push_str("segment none "),
        Some(vid) => {
            let number = vid.get();
            write!(text, "segment {number} ")
        }
    }
}

/// Puts the lines of the refused changes, by their causes.
pub fn put_changes(text: &mut String, refusals: &Refusals) -> Result<(), AllocError>
    ensures { OnOk result (string_bytes text.new ≡ string_bytes text.old ++ changes_text (refusals_in refusals.now)) }
{
    put_causes(text, refusals, &CHANGE_FAULTS)
}

/// Puts how often changes were refused, cause by cause.
fn put_causes(
    text: &mut String,
    refusals: &Refusals,
    causes: &[ChangeFault],
) -> Result<(), AllocError>
    ensures { OnOk result (string_bytes text.new
        ≡ string_bytes text.old ++ flat_map (refused_line (refusals_in refusals.now)) causes.now) }
{
    for cause in causes {
        put_refused(text, refusals, *cause)?;
    }
    Ok(())
}

/// Puts how often changes were refused for a cause.
#[tactic(auto, unfolding(crate::specs::Summary::refused_line, crate::specs::Summary::count_line))]
fn put_refused(text: &mut String, refusals: &Refusals, cause: ChangeFault) -> Result<(), AllocError>
    ensures { OnOk result (string_bytes text.new ≡ string_bytes text.old ++ refused_line (refusals_in refusals.now) cause) }
{
    let count = refused_for(refusals, cause);
    if count == 0 {
        return Ok(());
    }
    let number = cause.number();
    let name = cause.name();
    writeln!(text, "change refused {number} {name} {count}")
}

/// Puts the lines of the places, where this came and that left: so many ports, rising, and the underlay.
pub fn put_places(
    text: &mut String,
    came: &Flows,
    left: &Flows,
    ports: u8,
) -> Result<(), AllocError>
    ensures { OnOk result (string_bytes text.new
        ≡ string_bytes text.old ++ places_text (passed (flow_in came.now) (flow_in left.now)) ports) }
{
    for index in 0..ports {
        put_place(text, came, left, Tap::Port(index + 1))?;
    }
    put_place(text, came, left, Tap::Underlay)
}

/// Puts the lines of a place: what came from there, and what left.
fn put_place(text: &mut String, came: &Flows, left: &Flows, tap: Tap) -> Result<(), AllocError>
    ensures { OnOk result (string_bytes text.new
        ≡ string_bytes text.old ++ place_lines (passed (flow_in came.now) (flow_in left.now)) tap) }
{
    put_flow(text, tap, "in", came.at(tap))?;
    put_flow(text, tap, "out", left.at(tap))
}

/// Puts what passed at a place in one direction.
#[tactic(auto, unfolding(crate::specs::Summary::flow_line))]
fn put_flow(text: &mut String, tap: Tap, direction: &str, flow: Flow) -> Result<(), AllocError>
    ensures { OnOk result (string_bytes text.new ≡ string_bytes text.old ++ flow_line tap direction.now flow) }
{
    let frames = flow.frames;
    let octets = flow.octets;
    writeln!(text, "place {tap} {direction} {frames} {octets}")
}

/// Puts how many packets from the underlay had UDP checksums that their senders left to their network cards.
#[tactic(auto, unfolding(crate::specs::Summary::partial_line, crate::specs::Summary::count_line))]
pub fn put_partial(text: &mut String, count: u64) -> Result<(), AllocError>
    ensures { OnOk result (string_bytes text.new ≡ string_bytes text.old ++ partial_line count) }
{
    if count == 0 {
        return Ok(());
    }
    writeln!(text, "checksum partial {count}")
}

/// Puts the lines of cut captures, of places where this came.
pub fn put_cuts(text: &mut String, came: &Flows, cut: &[Tap]) -> Result<(), AllocError>
    ensures { OnOk result (string_bytes text.new
        ≡ string_bytes text.old ++ cuts_text (passed (flow_in came.now) (flow_in came.now)) cut.now) }
{
    for tap in cut {
        put_cut(text, *tap, came.at(*tap).frames)?;
    }
    Ok(())
}

/// Puts the line of a capture that is cut behind so many whole records.
fn put_cut(text: &mut String, tap: Tap, whole: u64) -> Result<(), AllocError>
    ensures { OnOk result (string_bytes text.new ≡ string_bytes text.old ++ cut_line (record { tap = tap; whole = whole })) }
{
    writeln!(text, "cut {tap} {whole}")
}
