//! Objects, but for the outcomes of what leaves.
ghost use Rattle.std.specs.Prelude.{◌≡◌, ◌≤◌, ◌+◌, ◌++◌, Some, None, codes, decimal, length};
ghost use Rattle.wire.specs.First.{fault_of};
ghost use Rattle.timeline.specs.Words.{source_word};
ghost use Rattle.endpoint_core.specs.Fault.{number_of};
ghost use Rattle.endpoint_core.specs.Decision.{refused_as};
ghost use Rattle.endpoint_core.specs.Step.{Decided, Replied};
ghost use Rattle.decision_objects.specs.Objects.{cut_object, end_text, event_text, number_text, object_text, segment_text};

use crate::origin::Origin;
use decision_lines::{Counter, Line};
use endpoint_core::ChangeFault;
use timeline::{Cut, Source};
use wire::ether::{Refused, Vid};

/// Writes the object of a frame or a packet that is dropped.
pub fn write_drop(line: &mut Line, number: &mut Counter, origin: &Origin, refused: Refused)
    ensures { line.new ≡ object_text origin.now None (Decided (refused_as refused)) }
{
    line.clear();
    line.put_text(b"{\"event\":");
    put_event(line, number, origin);
    put_named(line, refused.reason.name().as_bytes(), origin);
    line.put_text(b",\"reason\":");
    line.put_small(refused.reason.number());
    line.put_text(b",\"result\":\"drop\"");
    put_end(line, refused.segment, origin.source);
}

/// Writes the object of a change, with the segment that it names and what it was answered.
pub fn write_reply(
    line: &mut Line,
    number: &mut Counter,
    origin: &Origin,
    named: Option<Vid>,
    reply: Result<(), ChangeFault>,
)
    ensures { line.new ≡ object_text origin.now named (Replied (fault_of reply)) }
{
    match reply {
        Ok(()) => write_done(line, number, origin, named),
        Err(fault) => write_refused(line, number, origin, named, fault),
    }
}

/// Writes the object of a capture that ends with a cut rest.
pub fn write_cut(line: &mut Line, cut: &Cut)
    ensures { line.new ≡ cut_object cut.now }
{
    line.clear();
    line.put_text(b"{\"records\":");
    line.put_number(cut.whole);
    line.put_text(b",\"result\":\"cut\",\"source\":\"");
    line.put_tap(cut.tap);
    line.put_text(b"\"}\n");
}

/// Writes the object of what leaves up to its outcomes.
#[inline(always)]
pub(crate) fn begin_sent(line: &mut Line, number: &mut Counter, origin: &Origin)
    ensures text { line.new ≡ codes "{" ++ event_text origin.now ++ number_text origin.now ++ codes ",\"outcomes\":[" }
    ensures len { length line.new ≤ 104 }
{
    line.clear();
    line.put_text(b"{\"event\":");
    put_event(line, number, origin);
    line.put_text(b"\",\"number\":");
    line.put_number(origin.number);
    line.put_text(b",\"outcomes\":[");
}

/// Puts what stands behind the outcomes of what leaves.
#[inline(always)]
pub(crate) fn end_sent(line: &mut Line, segment: Vid, source: Source)
    requires room { length line.old + 51 ≤ 65536 }
    ensures { line.new ≡ line.old ++ (codes "],\"result\":\"sent\"" ++ end_text (Some segment) source) }
{
    line.put_text(b"],\"result\":\"sent\"");
    put_end(line, Some(segment), source);
}

/// Writes the object of a change that was made.
fn write_done(line: &mut Line, number: &mut Counter, origin: &Origin, named: Option<Vid>)
    ensures { line.new ≡ object_text origin.now named (Replied None) }
{
    line.clear();
    line.put_text(b"{\"event\":");
    put_event(line, number, origin);
    line.put_text(b"\",\"number\":");
    line.put_number(origin.number);
    line.put_text(b",\"result\":\"done\"");
    put_end(line, named, origin.source);
}

/// Writes the object of a change that was refused.
fn write_refused(
    line: &mut Line,
    number: &mut Counter,
    origin: &Origin,
    named: Option<Vid>,
    fault: ChangeFault,
)
    ensures { line.new ≡ object_text origin.now named (Replied (Some fault)) }
{
    begin_refused(line, fault);
    put_event(line, number, origin);
    put_named(line, fault.name().as_bytes(), origin);
    line.put_text(b",\"result\":\"refused\"");
    put_end(line, named, origin.source);
}

/// Clears the line and puts the number of a cause, up to the event's number.
fn begin_refused(line: &mut Line, fault: ChangeFault)
    ensures text { line.new ≡ codes "{\"cause\":" ++ decimal (number_of fault) ++ codes ",\"event\":" }
    ensures len { length line.new ≤ 21 }
{
    line.clear();
    line.put_text(b"{\"cause\":");
    line.put_small(fault.number());
    line.put_text(b",\"event\":");
}

/// Puts an event's number and its moment, up to the end of that.
#[inline(always)]
fn put_event(line: &mut Line, number: &mut Counter, origin: &Origin)
    requires room { length line.old + 59 ≤ 65536 }
    ensures text { line.new ≡ line.old
        ++ (decimal origin.now.event ++ codes ",\"moment\":\"" ++ decimal origin.now.moment) }
    ensures len { length line.new ≤ length line.old + 51 }
{
    number.go_to(origin.event);
    line.put_counter(number);
    line.put_text(b",\"moment\":\"");
    line.put_moment(origin.moment);
}

/// Puts the name of a reason or a cause behind a moment, and an event's number in its source.
fn put_named(line: &mut Line, name: &[u8], origin: &Origin)
    requires name { length name.now ≤ 16 }
    requires room { length line.old + 57 ≤ 65536 }
    ensures text { line.new ≡ line.old ++ (codes "\",\"name\":\"" ++ name.now ++ codes "\"" ++ number_text origin.now) }
    ensures len { length line.new ≤ length line.old + 57 }
{
    line.put_text(b"\",\"name\":\"");
    line.put_text(name);
    line.put_text(b"\",\"number\":");
    line.put_number(origin.number);
}

/// Puts the segment and the source, and ends the object and its line.
#[inline(always)]
fn put_end(line: &mut Line, segment: Option<Vid>, source: Source)
    requires room { length line.old + 34 ≤ 65536 }
    ensures { line.new ≡ line.old ++ end_text segment source }
{
    line.put_text(b",\"segment\":");
    put_segment(line, segment);
    put_last(line, source);
}

/// Puts the source, and ends the object and its line.
#[inline(always)]
fn put_last(line: &mut Line, source: Source)
    requires room { length line.old + 18 ≤ 65536 }
    ensures { line.new ≡ line.old ++ (codes ",\"source\":\"" ++ source_word source ++ codes "\"}\n") }
{
    line.put_text(b",\"source\":\"");
    line.put_source(source);
    line.put_text(b"\"}\n");
}

/// Puts the VID of a segment, or null for none.
#[inline(always)]
fn put_segment(line: &mut Line, segment: Option<Vid>)
    requires room { length line.old + 5 ≤ 65536 }
    ensures text { line.new ≡ line.old ++ segment_text segment }
    ensures len { length line.new ≤ length line.old + 5 }
{
    match segment {
        Some(vid) => line.put_short(vid.get()),
        None => line.put_text(b"null"),
    }
}
