//! Captures as the program opens them, and outputs as it writes them, over memory.
ghost use Rattle.std.specs.Prelude.{◌≡◌, ◌<◌, ◌^◌, All, IfOk, length};
ghost use Rattle.pcap.specs.Source.{New, Stream, most_left};

use crate::digest::{Digest, DigestOutput};
use crate::fault::{JobFault, Stage};
use crate::tape::Tape;
use pcap::stream::{BlockOutput, Sink, Source};
use pcapng_input::{CaptureInput, Selection};
use segment_set::SegmentSet;
use std::alloc::{AllocError, Global};
use stream_run::{Captures, Job, ReadTexts, RunOutputs, TakesAll, Unwatched, read_texts, run};
use test_inputs::{Pieces, in_pieces};

/// How many octets are read, and written, at once: as many as a pipe holds.
const BLOCK: usize = 65_536;

/// How many reads may be made of a capture.
const READS: u64 = 1 << 40;

/// A capture as the program opens it, but for the file.
pub type Capture<'a> = Source<CaptureInput<'a, Pieces<'a>>>;

/// Opens a capture. Nothing of it is read yet.
pub fn open<'a>(alloc: Global, octets: &'a [u8]) -> Result<Capture<'a>, AllocError>
    ensures new { IfOk result (λ (capture : Stream). capture.standing ≡ New) }
    ensures most { IfOk result (λ (capture : Stream). most_left capture < 2 ^ 64) }
{
    let pieces = in_pieces(octets, BLOCK, 0);
    let input = CaptureInput::new(alloc, pieces, Selection::All, READS)?;
    Source::new(alloc, input, READS)
}

/// Opens so many captures.
fn open_all<'a>(
    alloc: Global,
    tapes: &'a [Tape],
    count: usize,
) -> Result<Vec<Capture<'a>>, AllocError>
    ensures count { IfOk result (λ sources. length sources.items ≡ count) }
    ensures fresh { IfOk result (λ sources. All (λ (source : Stream). source.standing ≡ New) sources.items) }
{
    let mut sources = Vec::new(alloc);
    for number in 0..count {
        let source = open(alloc, text_of(tapes, number))?;
        sources.push(source)?;
    }
    Ok(sources)
}

/// What is written on the tape of this number; nothing where there is none.
fn text_of(tapes: &[Tape], number: usize) -> &[u8] {
    match tapes.get(number) {
        Some(tape) => tape.text(),
        None => &[],
    }
}

/// Sinks for so many ports, over outputs that keep digests.
fn digest_sinks(
    alloc: Global,
    count: usize,
) -> Result<Vec<Sink<BlockOutput<DigestOutput>>>, AllocError>
    ensures { IfOk result (λ sinks. length sinks.items ≡ count) }
{
    let mut sinks = Vec::new(alloc);
    for _sink in 0..count {
        sinks.push(Sink::new(BlockOutput::new(alloc, DigestOutput::new(), BLOCK)?))?;
    }
    Ok(sinks)
}

/// Adds what was written to an output.
fn add_output(digest: &mut Digest, output: BlockOutput<DigestOutput>) {
    let mut output = output;
    let _ = output.finish();
    digest.add_number(output.into_inner().word());
}

/// A digest of what a run writes, over captures of so many ports and, behind them, of the underlay, which may wait or not.
pub fn written(
    alloc: Global,
    settings: &[u8],
    tapes: &[Tape],
    ports: usize,
    may_wait: bool,
) -> Result<u64, JobFault> {
    let mut captures = Captures {
        ports: open_all(alloc, tapes, ports)?,
        underlay: open(alloc, text_of(tapes, ports))?,
        may_wait,
    };
    let mut outputs = RunOutputs {
        ports: digest_sinks(alloc, ports)?,
        underlay: Sink::new(BlockOutput::new(alloc, DigestOutput::new(), BLOCK)?),
        decisions: BlockOutput::new(alloc, DigestOutput::new(), BLOCK)?,
    };
    let Ok(read) = read_texts(alloc, settings, &[]) else {
        return Err(JobFault::Failed(Stage::Run));
    };
    let ReadTexts {
        settings: asked,
        changes: told,
    } = read;
    let all = SegmentSet::all();
    let job = Job {
        settings_text: settings,
        changes_text: &[],
        settings: asked,
        changes: told.as_slice(),
        segments: &all,
    };
    let end = run(
        alloc,
        job,
        &mut captures,
        &mut outputs,
        &mut TakesAll,
        &mut Unwatched,
    );
    if end.is_err() {
        return Err(JobFault::Failed(Stage::Run));
    }
    let mut digest = Digest::new();
    for sink in outputs.ports {
        add_output(&mut digest, sink.into_inner());
    }
    add_output(&mut digest, outputs.underlay.into_inner());
    add_output(&mut digest, outputs.decisions);
    Ok(digest.word())
}
