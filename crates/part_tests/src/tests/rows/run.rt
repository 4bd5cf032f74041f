//! Runs over devices of memory.
ghost use Rattle.std.specs.Prelude.{◌≡◌, All, IfOk, length};
ghost use Rattle.pcap.specs.Source.{New, Stream};

use crate::tests::rows::rows::Row;
use crate::tests::rows::sieved::{Elsewhere, run_row};
use capture_run::Outputs;
use pcap::stream::{Sink, Source};
use std::alloc::{AllocError, Global};
use std::test::Fail;
use stream_run::{Captures, RunOutputs, StreamFault, TakesAll};
use test_inputs::{GoingOn, Pieces, Room, going_on, in_pieces};

/// An input of a run.
type Device<'a> = GoingOn<Pieces<'a>>;

/// How the devices of a run do their work. Captures, and the outputs of their sides, are counted from 0: the ports', the
/// underlay's, and behind them the decision lines.
#[derive(Clone, Copy)]
pub(crate) struct Manner {
    /// At most so many octets a read, and a write.
    pub(crate) at_a_read: usize,
    pub(crate) at_a_write: usize,
    /// So many reads may be made of a capture.
    pub(crate) reads: u64,
    /// The capture of which a read fails, and the number of that read from 1.
    pub(crate) failing_read: (usize, u64),
    /// The output to which a write fails, or takes none, and the number of that write from 1.
    pub(crate) failing_write: (usize, u64),
    pub(crate) fails: bool,
    /// The first capture goes on with zero octets without end.
    pub(crate) is_endless: bool,
}

/// Devices that do all that they are asked for.
pub(crate) const WHOLE: Manner = Manner {
    at_a_read: 4096,
    at_a_write: 4096,
    reads: 1_000_000,
    failing_read: (0, 0),
    failing_write: (0, 0),
    fails: true,
    is_endless: false,
};

impl Manner {
    /// The input over a capture.
    fn input(self, index: usize, octets: &[u8]) -> Device<'_> {
        let (failing, number) = self.failing_read;
        let fails_at = if failing == index { number } else { 0 };
        let pieces = in_pieces(octets, self.at_a_read, fails_at);
        going_on(pieces, self.is_endless && index == 0)
    }

    /// The output of a side.
    fn output(self, alloc: Global, index: usize) -> Room {
        let (failing, number) = self.failing_write;
        let stops_at = if failing == index { number } else { 0 };
        Room::new(alloc, self.at_a_write, stops_at, self.fails)
    }

    /// The sources over captures, the first of which has this index.
    fn sources<'a>(
        self,
        alloc: Global,
        captures: &'a [Vec<u8>],
    ) -> Result<Vec<Source<Device<'a>>>, AllocError>
        ensures count { IfOk result (λ sources. length sources.items ≡ length captures.now) }
        ensures fresh { IfOk result (λ sources. All (λ (source : Stream). source.standing ≡ New) sources.items) }
    {
        let mut sources = Vec::new(alloc);
        for (index, capture) in captures.iter().enumerate() {
            let source = Source::new(alloc, self.input(index, capture.as_slice()), self.reads)?;
            sources.push(source)?;
        }
        Ok(sources)
    }

    /// So many sinks.
    fn sinks(self, alloc: Global, count: usize) -> Result<Vec<Sink<Room>>, AllocError>
        ensures { IfOk result (λ sinks. length sinks.items ≡ count) }
    {
        let mut sinks = Vec::new(alloc);
        for index in 0..count {
            sinks.push(Sink::new(self.output(alloc, index)))?;
        }
        Ok(sinks)
    }

    /// What a run writes, and how it ends.
    pub(crate) fn run(
        self,
        alloc: Global,
        row: &Row,
    ) -> Result<(Outputs, Result<(), StreamFault>), Fail> {
        let count = row.captures.ports.len();
        let ports = self.sources(alloc, row.captures.ports.as_slice())?;
        let underlay = Source::new(
            alloc,
            self.input(count, row.captures.underlay.as_slice()),
            self.reads,
        )?;
        let mut captures = Captures {
            ports,
            underlay,
            may_wait: true,
        };
        let mut written = RunOutputs {
            ports: self.sinks(alloc, count)?,
            underlay: Sink::new(self.output(alloc, count)),
            decisions: self.output(alloc, count.saturating_add(1)),
        };
        let end = if row.is_sieved {
            run_row(alloc, row, &mut captures, &mut written, &mut Elsewhere)
        } else {
            run_row(alloc, row, &mut captures, &mut written, &mut TakesAll)
        };
        let mut ports = Vec::new(alloc);
        for sink in written.ports {
            ports.push(sink.into_inner().octets)?;
        }
        let outputs = Outputs {
            ports,
            underlay: written.underlay.into_inner().octets,
            decisions: written.decisions.octets,
        };
        Ok((outputs, end))
    }
}
