//! Captures as the program opens them, and outputs as it writes them, over memory.
ghost use Rattle.std.specs.Prelude.{◌≡◌, ◌≤◌, All, IfOk, length};
ghost use Rattle.pcap.specs.Source.{New, Stream};
ghost use Rattle.stream_run.specs.Begun.{IsUnread};

use crate::digest::{Digest, DigestOutput};
use crate::fault::{JobFault, Stage};
use crate::traffic::Captures;
use part_record::DigestInput;
use pcap::stream::{BlockOutput, Output, Sink, Source};
use pcapng_input::{CaptureInput, Selection};
use segment_set::SegmentSet;
use std::alloc::{AllocError, Global};
use stream_run::{
    Captures as RunCaptures, Job, ReadTexts, RunOutputs, TakesAll, Watch, read_texts,
};
use test_inputs::{Pieces, in_pieces};

/// How many octets are read, and written, at once.
pub const BLOCK: usize = 65_536;

/// How many reads may be made of a capture.
pub const READS: u64 = 1 << 40;

/// A capture as the program opens it, but for the file.
pub type Device<'a> = DigestInput<CaptureInput<'a, Pieces<'a>>>;

pub type Capture<'a> = Source<Device<'a>>;

/// Opens a capture, whose digest is taken as it is read if that is asked for. Nothing of it is read yet.
pub fn open<'a>(
    alloc: Global,
    octets: &'a [u8],
    selection: Selection<'a>,
    is_digested: bool,
) -> Result<Capture<'a>, AllocError>
    ensures { IfOk result (λ (capture : Stream). capture.standing ≡ New) }
{
    let input = CaptureInput::new(alloc, in_pieces(octets, BLOCK, 0), selection, READS)?;
    Source::new(alloc, DigestInput::new(input, is_digested), READS)
}

/// Opens the captures of so many ports.
pub fn open_all<'a>(
    alloc: Global,
    captures: &'a Captures,
    count: usize,
    is_digested: bool,
) -> Result<Vec<Capture<'a>>, AllocError>
    ensures count { IfOk result (λ sources. length sources.items ≡ count) }
    ensures fresh { IfOk result (λ sources. All (λ (source : Stream). source.standing ≡ New) sources.items) }
{
    let mut sources = Vec::new(alloc);
    for number in 0..count {
        let source = open(alloc, captures.text(number), Selection::All, is_digested)?;
        sources.push(source)?;
    }
    Ok(sources)
}

/// Opens a text once for each of its first interfaces.
pub fn open_interfaces<'a>(
    alloc: Global,
    text: &'a [u8],
    count: u32,
) -> Result<Vec<Capture<'a>>, AllocError>
    ensures count { IfOk result (λ sources. length sources.items ≡ count) }
    ensures fresh { IfOk result (λ sources. All (λ (source : Stream). source.standing ≡ New) sources.items) }
{
    let mut sources = Vec::new(alloc);
    for number in 0..count {
        let source = open(alloc, text, Selection::Number(number), false)?;
        sources.push(source)?;
    }
    Ok(sources)
}

/// Sinks for so many ports, over outputs that keep digests.
fn digest_sinks(
    alloc: Global,
    count: usize,
) -> Result<Vec<Sink<BlockOutput<DigestOutput>>>, AllocError>
    ensures { IfOk result (λ sinks. length sinks.items ≡ count) }
{
    let mut sinks = Vec::new(alloc);
    for _sink in 0..count {
        sinks.push(Sink::new(BlockOutput::new(alloc, DigestOutput::new(), BLOCK)?))?;
    }
    Ok(sinks)
}

/// Adds what was written to an output.
fn add_output(digest: &mut Digest, output: BlockOutput<DigestOutput>) {
    let mut output = output;
    let _ = output.finish();
    digest.add_number(output.into_inner().word());
}

/// Runs an endpoint over captures, someone looks on, and adds what is written.
pub fn run<'a, T: Watch>(
    alloc: Global,
    digest: &mut Digest,
    settings: &[u8],
    changes: &[u8],
    ports: Vec<Capture<'a>>,
    underlay: Capture<'a>,
    watch: &mut T,
) -> Result<(), JobFault>
    requires new_ports { All IsUnread ports.items }
    requires new_underlay { IsUnread underlay }
{
    let mut outputs = RunOutputs {
        ports: digest_sinks(alloc, ports.len())?,
        underlay: Sink::new(BlockOutput::new(alloc, DigestOutput::new(), BLOCK)?),
        decisions: BlockOutput::new(alloc, DigestOutput::new(), BLOCK)?,
    };
    let mut captures = RunCaptures {
        ports,
        underlay,
        may_wait: false,
    };
    let Ok(read) = read_texts(alloc, settings, changes) else {
        return Err(JobFault::Failed(Stage::Run));
    };
    let ReadTexts {
        settings: asked,
        changes: told,
    } = read;
    let all = SegmentSet::all();
    let job = Job {
        settings_text: settings,
        changes_text: changes,
        settings: asked,
        changes: told.as_slice(),
        segments: &all,
    };
    let end = stream_run::run(
        alloc,
        job,
        &mut captures,
        &mut outputs,
        &mut TakesAll,
        watch,
    );
    if end.is_err() {
        return Err(JobFault::Failed(Stage::Run));
    }
    for sink in outputs.ports {
        add_output(digest, sink.into_inner());
    }
    add_output(digest, outputs.underlay.into_inner());
    add_output(digest, outputs.decisions);
    Ok(())
}
