//! Whole runs.
ghost use Rattle.std.specs.Prelude.{◌≡◌, All, IfOk, None, [], ◌∷◌, length};
ghost use Rattle.pcap.specs.Source.{New};
ghost use Rattle.stream_run.specs.Begun.{IsUnread};

use crate::answer::Answer;
use crate::inputs;
use crate::texts::printed;
use capture_run::{RunFault, run_bytes};
use explanation::sample::sample;
use explanation::{Values, explain_bytes};
use pcap::stream::{DeviceFault, Output, Sink, Source, StdInput, WriteFault};
use segment_set::SegmentSet;
use std::alloc::{AllocError, Global};
use std::test::Fail;
use stream_run::{
    Captures, Job, ReadTexts, RunOutputs, StreamFault, TakesAll, Unwatched, read_texts,
};
use test_inputs::memory::request;

/// Runs the built-in sample.
pub(crate) fn sampled(alloc: Global, count: u16) -> Answer {
    request(alloc, count);
    printed(sample(alloc), inputs::sample_says())
}

/// Explains a capture.
pub(crate) fn explained(alloc: Global, count: u16, capture: &[u8], expected: &str) -> Answer {
    request(alloc, count);
    let text = explain_bytes(
        alloc,
        inputs::small().as_bytes(),
        capture,
        4,
        Values::Hidden,
    );
    printed(text, expected)
}

/// Of a run over texts.
fn ran_over(alloc: Global, ports: &[Vec<u8>], underlay: &[u8], expected: &str) -> Answer {
    let settings = inputs::small().as_bytes();
    let changes = inputs::changes().as_bytes();
    match run_bytes(alloc, settings, changes, ports, underlay) {
        Ok(outputs) => Answer::text(outputs.decisions.as_slice(), expected.as_bytes()),
        Err(fault) => Answer::of(false, matches!(fault, RunFault::OutOfMemory)),
    }
}

/// A run over texts.
pub(crate) fn ran(alloc: Global, count: u16) -> Result<Answer, Fail> {
    let ports = [Vec::from_slice(alloc, inputs::capture())?];
    request(alloc, count);
    Ok(ran_over(alloc, &ports, inputs::cut(), inputs::decisions()))
}

/// Counts what is written. It takes no memory.
#[derive(Drop)]
struct Counted {
    octets: usize,
}

impl Output for Counted {
    ghost written = { λ _. None };

    ghost failures = { λ _. 0 };

    fn hand_on_held(&mut self) -> Result<(), WriteFault> {
        Ok(())
    }

    fn write(&mut self, octets: &[u8]) -> Result<usize, DeviceFault> {
        self.octets = self.octets.saturating_add(octets.len());
        Ok(octets.len())
    }
}

/// An input over octets in memory.
type Octets<'a> = StdInput<&'a [u8]>;

/// A source of which nothing was read.
fn source<'a>(alloc: Global, octets: &'a [u8]) -> Result<Source<Octets<'a>>, AllocError>
    ensures { IfOk result (λ source. source.standing ≡ New) }
{
    Source::new(alloc, StdInput::new(octets), 9)
}

/// Nothing was written yet.
fn sink() -> Sink<Counted> {
    Sink::new(Counted { octets: 0 })
}

/// One item alone.
fn one<T: Drop>(alloc: Global, item: T) -> Result<Vec<T>, AllocError>
    ensures { IfOk result (λ items. items.items ≡ item ∷ []) }
{
    let mut items = Vec::new(alloc);
    items.push(item)?;
    Ok(items)
}

/// Of a run that wrote so many octets of lines and of packets. Where memory is refused, there are none.
fn told(end: Result<(), StreamFault>, lines: usize, packets: usize) -> Answer {
    match end {
        Ok(()) => Answer::of(
            lines == inputs::decisions().len() && packets == inputs::PACKETS,
            false,
        ),
        Err(fault) => {
            let is_memory = matches!(fault, StreamFault::Run(RunFault::OutOfMemory));
            Answer::of(false, is_memory && lines == 0 && packets == 0)
        }
    }
}

/// Runs over these captures.
fn run_over<'a>(
    alloc: Global,
    captures: &mut Captures<Octets<'a>>,
    outputs: &mut RunOutputs<Counted>,
) -> Result<(), StreamFault>
    requires sinks { length outputs.old.ports ≡ length captures.old.ports.items }
    requires ports { All IsUnread captures.old.ports.items }
    requires underlay { IsUnread captures.old.underlay }
{
    let settings_text = inputs::small().as_bytes();
    let changes_text = inputs::changes().as_bytes();
    let ReadTexts { settings, changes } = match read_texts(alloc, settings_text, changes_text) {
        Ok(read) => read,
        Err(fault) => return Err(StreamFault::Run(fault)),
    };
    let all = SegmentSet::all();
    let job = Job {
        settings_text,
        changes_text,
        settings,
        changes: changes.as_slice(),
        segments: &all,
    };
    stream_run::run(alloc, job, captures, outputs, &mut TakesAll, &mut Unwatched)
}

/// Of a run over these captures.
fn streamed_over<'a>(
    alloc: Global,
    captures: Captures<Octets<'a>>,
    outputs: RunOutputs<Counted>,
) -> Answer
    requires sinks { length outputs.ports ≡ length captures.ports.items }
    requires ports { All IsUnread captures.ports.items }
    requires underlay { IsUnread captures.underlay }
{
    let mut captures = captures;
    let mut outputs = outputs;
    let end = run_over(alloc, &mut captures, &mut outputs);
    told(
        end,
        outputs.decisions.octets,
        outputs.underlay.into_inner().octets,
    )
}

/// A run over streams.
pub(crate) fn streamed(alloc: Global, count: u16) -> Result<Answer, Fail> {
    let captures = Captures {
        ports: one(alloc, source(alloc, inputs::capture())?)?,
        underlay: source(alloc, inputs::cut())?,
        may_wait: false,
    };
    let outputs = RunOutputs {
        ports: one(alloc, sink())?,
        underlay: sink(),
        decisions: Counted { octets: 0 },
    };
    request(alloc, count);
    Ok(streamed_over(alloc, captures, outputs))
}
