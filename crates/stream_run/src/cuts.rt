//! The lines of the captures that are cut.
ghost use Rattle.std.specs.Prelude.{◌≡◌, ◌≤◌, ◌<◌, ◌+◌, length};
ghost use Rattle.std.specs.Option.{option_to_list};
ghost use Rattle.capture_run.specs.Among.{cuts_among};
ghost use Rattle.capture_run.specs.Outputs.{Outputs as Texts};
ghost use Rattle.capture_run.specs.Writing.{with_cuts};
ghost use Rattle.stream_run.specs.Cuts.{cut_behind, cuts_at};
ghost use Rattle.stream_run.specs.Stage.{Drains, Lead, StandAt};

use crate::captures::Captures;
use crate::fault::Target;
use crate::put::put_line;
use crate::turn::Turn;
use decision_lines::Line;
use pcap::stream::{Input, Output, Source};
use segment_set::SegmentSet;
use timeline::{Cut, RunOutputs, Tap};

/// Puts the line of a capture, if it is cut behind so many whole records.
fn put_cut<R: Input, W: Output>(
    source: &Source<R>,
    tap: Tap,
    whole: u64,
    line: &mut Line,
    outputs: &mut RunOutputs<W>,
) -> Result<(), Target>
    ensures { (start : Drains) (o : Texts) → StandAt start outputs.old o
        → Lead start outputs.new o (with_cuts o (option_to_list (cut_behind tap source.now whole))) result }
{
    if !source.is_cut() {
        return Ok(());
    }
    line.write_cut(&Cut { tap, whole });
    put_line(outputs, line.text())
}

/// Puts the lines of the captures that are cut, the ports' rising and then the underlay's.
fn put_cuts<R: Input, W: Output>(
    captures: &Captures<R>,
    turns: &[Turn],
    line: &mut Line,
    outputs: &mut RunOutputs<W>,
) -> Result<(), Target>
    requires few { length captures.now.ports.items ≤ 255 }
    requires turns { length turns.now ≡ length captures.now.ports.items + 2 }
    ensures { (start : Drains) (o : Texts) → StandAt start outputs.old o
        → Lead start outputs.new o (with_cuts o (cuts_at captures.now.ports.items captures.now.underlay turns.now)) result }
{
    for i in 0..captures.ports.len() {
        if let Err(target) = put_cut(
            &captures.ports[i],
            Tap::Port(i as u8 + 1),
            turns[i + 1].done,
            line,
            outputs,
        ) {
            return Err(target);
        }
    }
    put_cut(
        &captures.underlay,
        Tap::Underlay,
        turns[captures.ports.len() + 1].done,
        line,
        outputs,
    )
}

/// Puts these lines where what comes to no segment is asked for; they stand in no other part of a run.
pub fn put_cuts_among<R: Input, W: Output>(
    segments: &SegmentSet,
    captures: &Captures<R>,
    turns: &[Turn],
    line: &mut Line,
    outputs: &mut RunOutputs<W>,
) -> Result<(), Target>
    requires few { length captures.now.ports.items ≤ 255 }
    requires turns { length turns.now ≡ length captures.now.ports.items + 2 }
    ensures { (start : Drains) (o : Texts) → StandAt start outputs.old o
        → Lead start outputs.new o (with_cuts o
        (cuts_among segments.now (cuts_at captures.now.ports.items captures.now.underlay turns.now))) result }
{
    if !segments.has(None) {
        return Ok(());
    }
    put_cuts(captures, turns, line, outputs)
}
