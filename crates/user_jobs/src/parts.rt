//! A run in four parts: the parts, of which the first takes the digests of the captures, and the merge.
ghost use Rattle.std.specs.Prelude.{◌≡◌, ◌≤◌, IfOk, length};

use crate::devices::{BLOCK, READS, open, open_all};
use crate::digest::{Digest, DigestOutput};
use crate::draws::Draws;
use crate::fault::{JobFault, Stage};
use crate::traffic::{Captures, PORTS, Traffic, switch_settings};
use line_stream::Lines;
use part_lines::{LineFacts, read_line};
use part_merge::{Part, PartCapture, merge_streams};
use part_record::{CaptureDigests, digests_of, digests_taken, digests_text};
use pcap::stream::{BlockOutput, Sink, Source};
use pcapng_input::Selection;
use segment_set::SegmentSet;
use std::alloc::{AllocError, Global};
use stream_run::{
    Captures as RunCaptures, Job, ReadTexts, RunOutputs, TakesAll, Unwatched, read_texts, run,
};
use test_inputs::{Pieces, Room, in_pieces};

/// The segments of the parts.
const LISTS: [&str; 4] = ["100-103", "104-111", "112-127", "128-163,none"];

/// What a part wrote.
#[derive(Drop)]
struct Written {
    ports: Vec<Vec<u8>>,
    underlay: Vec<u8>,
    decisions: Vec<u8>,
    /// Those of the captures, where it took them.
    digests: Option<CaptureDigests>,
}

/// Hours of a switch in four parts each.
pub fn parts(
    alloc: Global,
    digest: &mut Digest,
    draws: Draws,
    rounds: u32,
    events: u32,
) -> Result<(), JobFault> {
    let settings = switch_settings(alloc, 200)?;
    let mut captures = Captures::new(alloc, PORTS, events)?;
    let mut traffic = Traffic::new(alloc, draws, 100)?;
    for _round in 0..rounds {
        traffic.put(&mut captures, events);
        in_parts(alloc, digest, settings.as_bytes(), &captures)?;
    }
    Ok(())
}

/// A run in four parts.
fn in_parts(
    alloc: Global,
    digest: &mut Digest,
    settings: &[u8],
    captures: &Captures,
) -> Result<(), JobFault> {
    let mut written = Vec::new(alloc);
    for list in LISTS {
        let Ok(segments) = SegmentSet::parse(list) else {
            return Err(JobFault::Failed(Stage::Segments));
        };
        let is_first = written.is_empty();
        let part = run_part(alloc, settings, captures, &segments, is_first)?;
        if is_first {
            add_digests(alloc, digest, &part.digests)?;
        }
        digest.add_number(count_events(alloc, part.decisions.as_slice())?);
        written.push(part)?;
    }
    // A merge counts the events of each part before it begins.
    for part in &written {
        digest.add_number(count_events(alloc, part.decisions.as_slice())?);
    }
    merge(alloc, digest, written.as_slice())
}

/// Adds the digests of captures, which are written and read back.
fn add_digests(
    alloc: Global,
    digest: &mut Digest,
    digests: &Option<CaptureDigests>,
) -> Result<(), JobFault> {
    let Some(digests) = digests else {
        return Err(JobFault::Failed(Stage::Digests));
    };
    let text = digests_text(alloc, digests)?;
    digest.add(text.as_slice());
    match str::from_utf8(text.as_slice()) {
        Ok(text) if digests_of(text).is_ok() => Ok(()),
        _ => Err(JobFault::Failed(Stage::Digests)),
    }
}

/// An output that keeps what is written, in blocks.
fn kept(alloc: Global) -> Result<BlockOutput<Room>, AllocError> {
    BlockOutput::new(alloc, Room::new(alloc, usize::MAX, 0, false), BLOCK)
}

/// Sinks for so many ports that keep what is written.
fn kept_sinks(alloc: Global, count: usize) -> Result<Vec<Sink<BlockOutput<Room>>>, AllocError>
    ensures { IfOk result (λ sinks. length sinks.items ≡ count) }
{
    let mut sinks = Vec::new(alloc);
    for _sink in 0..count {
        sinks.push(Sink::new(kept(alloc)?))?;
    }
    Ok(sinks)
}

/// What was written to an output.
fn octets_of(output: BlockOutput<Room>) -> Vec<u8> {
    let mut output = output;
    let _ = output.finish();
    output.into_inner().octets
}

/// Runs some segments, and takes the digests of the captures if that is asked for.
fn run_part(
    alloc: Global,
    settings: &[u8],
    captures: &Captures,
    segments: &SegmentSet,
    is_digested: bool,
) -> Result<Written, JobFault> {
    let mut read = RunCaptures {
        ports: open_all(alloc, captures, PORTS, is_digested)?,
        underlay: open(alloc, captures.underlay(), Selection::All, is_digested)?,
        may_wait: false,
    };
    let mut outputs = RunOutputs {
        ports: kept_sinks(alloc, read.ports.len())?,
        underlay: Sink::new(kept(alloc)?),
        decisions: kept(alloc)?,
    };
    let Ok(texts) = read_texts(alloc, settings, &[]) else {
        return Err(JobFault::Failed(Stage::Part));
    };
    let ReadTexts {
        settings: asked,
        changes: told,
    } = texts;
    let job = Job {
        settings_text: settings,
        changes_text: &[],
        settings: asked,
        changes: told.as_slice(),
        segments,
    };
    let end = run(
        alloc,
        job,
        &mut read,
        &mut outputs,
        &mut TakesAll,
        &mut Unwatched,
    );
    if end.is_err() {
        return Err(JobFault::Failed(Stage::Part));
    }
    let mut texts = Vec::new(alloc);
    for sink in outputs.ports {
        texts.push(octets_of(sink.into_inner()))?;
    }
    Ok(Written {
        ports: texts,
        underlay: octets_of(outputs.underlay.into_inner()),
        decisions: octets_of(outputs.decisions),
        digests: digests_taken(read.ports.as_slice(), &read.underlay),
    })
}

/// How many events decision lines tell.
fn count_events(alloc: Global, decisions: &[u8]) -> Result<u64, JobFault> {
    let mut lines = Lines::new(alloc, in_pieces(decisions, BLOCK, 0))?;
    let mut events = 0_u64;
    for _line in 0..u64::MAX {
        if lines.fetch().is_err() {
            return Err(JobFault::Failed(Stage::Lines));
        }
        if lines.line().is_empty() {
            break;
        }
        match read_line(lines.line()) {
            Ok(LineFacts::Event(..)) => events = events.saturating_add(1),
            Ok(LineFacts::Cut) => {}
            Err(_) => return Err(JobFault::Failed(Stage::Lines)),
        }
    }
    Ok(events)
}

/// Opens a capture that a part wrote.
fn open_written(alloc: Global, text: &[u8]) -> Result<PartCapture<Pieces<'_>>, JobFault> {
    match PartCapture::open(Source::new(alloc, in_pieces(text, BLOCK, 0), READS)?) {
        Ok(capture) => Ok(capture),
        Err(_) => Err(JobFault::Failed(Stage::PartOpened)),
    }
}

/// Opens a part.
fn open_part(
    alloc: Global,
    number: usize,
    written: &Written,
) -> Result<Part<Pieces<'_>>, JobFault> {
    let lines = Lines::new(alloc, in_pieces(written.decisions.as_slice(), BLOCK, 0))?;
    let mut ports = Vec::new(alloc);
    for text in &written.ports {
        ports.push(open_written(alloc, text.as_slice())?)?;
    }
    let underlay = open_written(alloc, written.underlay.as_slice())?;
    match Part::open(number, lines, ports, underlay) {
        Ok(part) => Ok(part),
        Err(_) => Err(JobFault::Failed(Stage::PartOpened)),
    }
}

/// Puts parts together, and adds what is written.
fn merge(alloc: Global, digest: &mut Digest, written: &[Written]) -> Result<(), JobFault> {
    let mut parts = Vec::new(alloc);
    for (number, part) in written.iter().enumerate() {
        parts.push(open_part(alloc, number, part)?)?;
    }
    let mut sinks = Vec::new(alloc);
    for _port in 0..PORTS {
        sinks.push(Sink::new(BlockOutput::new(alloc, DigestOutput::new(), BLOCK)?))?;
    }
    if sinks.len() > 255 {
        return Err(JobFault::Failed(Stage::Merge));
    }
    let mut outputs = RunOutputs {
        ports: sinks,
        underlay: Sink::new(BlockOutput::new(alloc, DigestOutput::new(), BLOCK)?),
        decisions: BlockOutput::new(alloc, DigestOutput::new(), BLOCK)?,
    };
    if merge_streams(parts.as_mut_slice(), &mut outputs, false).is_err() {
        return Err(JobFault::Failed(Stage::Merge));
    }
    for sink in outputs.ports {
        add_output(digest, sink.into_inner());
    }
    add_output(digest, outputs.underlay.into_inner());
    add_output(digest, outputs.decisions);
    Ok(())
}

/// Adds what was written to an output.
fn add_output(digest: &mut Digest, output: BlockOutput<DigestOutput>) {
    let mut output = output;
    let _ = output.finish();
    digest.add_number(output.into_inner().word());
}
