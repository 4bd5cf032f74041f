//! A capture, written record by record.
//!
//! [`Sink::begin`] has no condition: who calls it twice writes two headers.
ghost use Rattle.std.specs.Prelude.{◌≡◌, ◌≤◌, ◌+◌, ◌++◌, false, is_err, length};
ghost use Rattle.pcap.specs.Record.{last_moment, longest};
ghost use Rattle.pcap.specs.Written.{whole_frame, written_header, written_record};
ghost use Rattle.pcap.specs.Sink.{IsHandedOn, IsPut};

use crate::stream::fault::WriteFault;
use crate::stream::output::Output;
use crate::stream::write::write_record;
use crate::text::global_header;
use std::marker::Model;

/// A capture that is written to an output: little-endian, in nanoseconds, link type Ethernet.
///
/// Once a write has failed, or took none of some octets, each call answers [`WriteFault`] and writes nothing. Contracts
/// see the octets that were written, its count of failures, whether the sink has given up, and what the output holds back.
#[derive(Drop)]
pub struct Sink<W: Output> {
    output: W,
    is_failed: bool,
}

impl<W: Output> Model for Sink<W> {
    ghost use Rattle.pcap.specs.Sink.{Drain};

    ghost Value = { Drain };

    ghost view = { λ s. record {
      written = W.written s.output;
      failures = W.failures s.output;
      is_failed = s.is_failed;
      held = W.held s.output;
    } };
}

impl<W: Output> Sink<W> {
    /// A sink that goes on where the output stands. It writes nothing yet.
    pub fn new(output: W) -> Sink<W>
        ensures { result ≡ record {
          written = W.written output;
          failures = W.failures output;
          is_failed = false;
          held = W.held output;
        } }
    {
        Sink {
            output,
            is_failed: false,
        }
    }

    /// Keeps in mind whether a write failed.
    fn note(&mut self, written: Result<(), WriteFault>) -> Result<(), WriteFault>
        ensures answer { result ≡ written }
        ensures noted { self.new ≡ record self.old { is_failed = is_err written } }
    {
        self.is_failed = written.is_err();
        written
    }

    /// Writes the global header.
    pub fn begin(&mut self) -> Result<(), WriteFault>
        ensures { IsPut self.old self.new written_header result }
    {
        if self.is_failed {
            return Err(WriteFault);
        }
        let written = self.output.write_all(&global_header());
        self.note(written)
    }

    /// Writes a record that holds a whole frame, the four slices side by side.
    ///
    /// `moment` is in nanoseconds, at most 4,294,967,295,999,999,999; the slices together have at most 262,144 octets,
    /// and any of them may be empty.
    #[inline(always)]
    pub fn put(
        &mut self,
        moment: u64,
        head: &[u8],
        addresses: &[u8],
        tag: &[u8],
        body: &[u8],
    ) -> Result<(), WriteFault>
        requires moment { moment ≤ last_moment }
        requires size { length head.now + length addresses.now + length tag.now + length body.now ≤ longest }
        ensures { IsPut self.old self.new
            (written_record (whole_frame moment (head.now ++ (addresses.now ++ (tag.now ++ body.now))))) result }
    {
        if self.is_failed {
            return Err(WriteFault);
        }
        let written = write_record(&mut self.output, moment, head, addresses, tag, body);
        self.note(written)
    }

    /// Hands on what the output holds back. Nothing more is written, and where it succeeds nothing is held back.
    pub fn hand_on_held(&mut self) -> Result<(), WriteFault>
        ensures { IsHandedOn self.old self.new result }
    {
        if self.is_failed {
            return Err(WriteFault);
        }
        let handed = self.output.hand_on_held();
        self.note(handed)
    }

    /// The output.
    pub fn into_inner(self) -> W
        ensures written { W.written result ≡ self.written }
        ensures failures { W.failures result ≡ self.failures }
    {
        let Sink {
            output,
            is_failed: _,
        } = self;
        output
    }
}
