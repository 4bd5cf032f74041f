//! A capture of a part.
ghost use Rattle.std.specs.Prelude.{◌≡◌, ◌++◌, ℕ, List, [], Some, false};
ghost use Rattle.pcap.specs.Written.{written_header};
ghost use Rattle.pcap.specs.Source.{New, holds_next};
ghost use Rattle.part_merge.specs.Blame.{CopyReads, CopyWrites, OpenReads};
ghost use Rattle.part_merge.specs.Copied.{Copies, EndsWith, Opens, TellsEnd, TellsStop};
ghost use Rattle.part_merge.specs.Left.{IsLeft, IsWritten};
ghost use Rattle.part_merge.specs.Waiting.{AtRead};

use part_lines::RecordsFault;
use pcap::stream::{Input, Output, Sink, Source, SourceFault};
use std::marker::Model;

/// Why a record isn't copied.
#[derive(Clone, Copy)]
pub(crate) enum Stop {
    /// A read failed, or one more was needed than may be made.
    Read,
    /// A write failed, or took none of some octets.
    Write,
    /// The capture is wrong.
    Wrong(RecordsFault),
}

/// A capture of a part, whose header was read. Contracts see it as its source.
#[derive(Drop)]
pub struct PartCapture<R: Input> {
    source: Source<R>,
}

impl<R: Input> Model for PartCapture<R> {
    ghost use Rattle.std.specs.Prelude.{◌≢◌};
    ghost use Rattle.pcap.specs.Source.{New, Stream};

    ghost Value = { Stream };

    ghost view = { λ c. c.source };

    ghost invariant = { λ c. c.source.standing ≢ New };
}

impl<R: Input> PartCapture<R> {
    /// Reads the header of a capture of which nothing was read yet. A capture that a run wrote is opened, unless a read
    /// fails, or one more is needed than may be made. A source that isn't opened is handed back, as it stands then.
    pub fn open(source: Source<R>) -> Result<PartCapture<R>, (SourceFault, Source<R>)>
        requires { source.standing ≡ New }
        ensures opened { (text : List ℕ) → source.supply.rest ≡ Some (written_header ++ text) → Opens text result }
        ensures reads { OpenReads source result }
    {
        let mut source = source;
        match source.open() {
            Ok(()) => Ok(PartCapture { source }),
            Err(fault) => Err((fault, source)),
        }
    }

    /// Whether the next record was read ahead whole: then to copy it takes no read.
    pub(crate) fn holds_next(&self) -> bool
        ensures { result ≡ holds_next self.now }
    {
        self.source.holds_next()
    }

    /// Copies the next record into a sink, as a run writes it. Where a read failed it took one, and the sink is as before.
    pub(crate) fn copy<W: Output>(&mut self, sink: &mut Sink<W>) -> Result<(), Stop>
        ensures copied { (text rest : List ℕ) → IsWritten text → IsLeft (text ++ rest) self.old
            → Copies text rest self.new sink.old sink.new result }
        ensures told { TellsStop self.new result }
        ensures reads { CopyReads self.old self.new result }
        ensures writes { CopyWrites sink.old sink.new result }
        ensures waits { AtRead result ((holds_next self.old ≡ false) × (sink.new ≡ sink.old)) }
    {
        if let Err(fault) = self.source.fill() {
            return Err(stop_by(fault));
        }
        let Some(record) = self.source.head() else {
            return Err(Stop::Wrong(RecordsFault::Missing));
        };
        if record.octets.len() != record.original as usize {
            return Err(Stop::Wrong(RecordsFault::Sliced));
        }
        match sink.put(record.moment, &[], &[], &[], record.octets) {
            Ok(()) => Ok(()),
            Err(_) => Err(Stop::Write),
        }
    }

    /// Sees that nothing is left behind the records that were copied.
    pub(crate) fn end(&mut self) -> Result<(), Stop>
        ensures ended { IsLeft [] self.old → EndsWith result }
        ensures told { TellsEnd self.new result }
        ensures reads { CopyReads self.old self.new result }
    {
        if let Err(fault) = self.source.fill() {
            return Err(stop_by(fault));
        }
        if let Some(_) = self.source.head() {
            return Err(Stop::Wrong(RecordsFault::LeftOver));
        }
        if self.source.is_cut() {
            return Err(Stop::Wrong(RecordsFault::LeftOver));
        }
        Ok(())
    }
}

/// What a fault of a source stops a copy by.
fn stop_by(fault: SourceFault) -> Stop
    ensures { result ≡ Rattle.part_merge.specs.Copied.stop_by fault }
{
    match fault {
        SourceFault::Read => Stop::Read,
        _ => Stop::Wrong(RecordsFault::Source(fault)),
    }
}
