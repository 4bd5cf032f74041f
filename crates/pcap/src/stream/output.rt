//! Where octets go.
//!
//! An [`Output`] counts a write that takes none of some octets as a failure, so that a [`WriteFault`] always shows in that
//! count.
ghost use Rattle.std.specs.Prelude.{◌≡◌, ◌≤◌, ◌<◌, ◌+◌, [], ◌++◌, ℕ, List, Option, length, take, IfOk, OnErr, OnOk};
ghost use Rattle.std.specs.Io.{WritesAtMost};
ghost use Rattle.std.specs.Io.KnownBytes.{Appends, Keeps, WriteAppends};
ghost use Rattle.pcap.specs.Counts.{CountsRefusals, GoesOnBy};
ghost use Rattle.pcap.specs.Sink.{AppendsPart};

use crate::stream::device::{DeviceFault, TRIES};
use crate::stream::fault::WriteFault;
use crate::stream::write::{FRONT, put_four};
use std::io::{ErrorKind, Write};

/// Octets that go one write after another.
pub trait Output {
    /// The octets written, where the device tells them.
    ghost written: { Self → Option (List ℕ) };

    /// How many writes failed, or took none of some octets: a count that goes round at 2^64.
    ghost failures: { Self → ℕ };

    /// Those of the octets written that are held back: none, where an output doesn't say so.
    ghost held: { Self → List ℕ } = { λ _. [] };

    /// Appends exactly the first n of `octets` at `Ok(n)`. A fault appends none.
    fn write(&mut self, octets: &[u8]) -> Result<usize, DeviceFault>
        ensures bound { WritesAtMost result octets.now }
        ensures appended { WriteAppends (written self.old) (written self.new) result octets.now }
        ensures failures { CountsRefusals (failures self.old) (failures self.new) result (length octets.now) };

    /// Appends `octets` in as many writes as it takes, and says how many were appended. A fault comes where a write fails
    /// or takes none of some octets: then they are not all.
    fn hand_on(&mut self, octets: &[u8]) -> (usize, Result<(), WriteFault>)
        ensures bound { result.0 ≤ length octets.now }
        ensures all { OnOk result.1 (result.0 ≡ length octets.now) }
        ensures part { OnErr result.1 (result.0 < length octets.now) }
        ensures taken { Appends (written self.old) (written self.new) (take result.0 octets.now) }
        ensures quiet { OnOk result.1 (failures self.new ≡ failures self.old) }
        ensures cause { OnErr result.1 (GoesOnBy 1 (failures self.old) (failures self.new)) }
    {
        let mut at = 0;
        while at < octets.len() {
            let Ok(n) = self.write(&octets[at..]) else {
                return (at, Err(WriteFault));
            };
            if n == 0 {
                return (at, Err(WriteFault));
            }
            at += n;
        }
        (at, Ok(()))
    }

    /// Whether octets are held back that have to go on before so many more can be. Who holds none back is never asked to.
    fn must_hand_on(&self, _more: usize) -> bool {
        false
    }

    /// Hands on what is held back, as far as something is. What was written stays the same, also where that fails: the rest is
    /// held back then.
    fn hand_on_held(&mut self) -> Result<(), WriteFault>
        ensures kept { Keeps (written self.old) (written self.new) }
        ensures all { OnOk result (held self.new ≡ []) }
        ensures quiet { OnOk result (failures self.new ≡ failures self.old) }
        ensures cause { OnErr result (GoesOnBy 1 (failures self.old) (failures self.new)) };

    /// Appends all of `octets`, in as many writes as it takes. A fault comes where a write fails or takes none of some
    /// octets: then a part of them was appended, and not all.
    fn write_all(&mut self, octets: &[u8]) -> Result<(), WriteFault>
        ensures ok { OnOk result (Appends (written self.old) (written self.new) octets.now) }
        ensures err { OnErr result (AppendsPart (written self.old) (written self.new) octets.now) }
        ensures quiet { OnOk result (failures self.new ≡ failures self.old) }
        ensures cause { OnErr result (GoesOnBy 1 (failures self.old) (failures self.new)) }
    {
        let (_, result) = self.hand_on(octets);
        result
    }

    /// Appends five texts, one behind another, of which all but the last are short, as [`Output::write_all`] appends one.
    fn write_gathered(
        &mut self,
        before: &[u8],
        head: &[u8],
        addresses: &[u8],
        tag: &[u8],
        body: &[u8],
    ) -> Result<(), WriteFault>
        requires { length before.now + length head.now + length addresses.now + length tag.now ≤ 102 }
        ensures ok { OnOk result (Appends (written self.old) (written self.new)
            (before.now ++ (head.now ++ (addresses.now ++ (tag.now ++ body.now))))) }
        ensures err { OnErr result (AppendsPart (written self.old) (written self.new)
            (before.now ++ (head.now ++ (addresses.now ++ (tag.now ++ body.now))))) }
        ensures quiet { OnOk result (failures self.new ≡ failures self.old) }
        ensures cause { OnErr result (GoesOnBy 1 (failures self.old) (failures self.new)) }
    {
        let mut front = [0; FRONT];
        let end = put_four(&mut front, 0, before, head, addresses, tag);
        if let Err(fault) = self.write_all(&front[..end]) {
            return Err(fault);
        }
        self.write_all(body)
    }
}

/// A writer of std's, as an output.
#[derive(Drop)]
pub struct StdOutput<W: Write> {
    writer: W,
    failures: u64,
}

impl<W: Write> StdOutput<W> {
    /// An output that goes on where the writer stands, with its count at 0.
    pub fn new(writer: W) -> StdOutput<W>
        ensures writer { result.writer ≡ writer }
        ensures failures { result.failures ≡ 0 }
    {
        StdOutput {
            writer,
            failures: 0,
        }
    }

    /// The writer.
    pub fn writer(&self) -> &W
        ensures { result.now ≡ self.now.writer }
    {
        &self.writer
    }

    /// The same, for good. It may still hold octets in a buffer of its own.
    pub fn into_inner(self) -> W
        ensures { result ≡ self.writer }
    {
        let StdOutput {
            writer,
            failures: _,
        } = self;
        writer
    }
}

impl<W: Write> Output for StdOutput<W> {
    ghost written = { λ s. W.contents s.writer };

    ghost failures = { λ s. s.failures };

    #[inline]
    fn hand_on_held(&mut self) -> Result<(), WriteFault> {
        Ok(())
    }

    fn write(&mut self, octets: &[u8]) -> Result<usize, DeviceFault> {
        match write_again(&mut self.writer, octets) {
            Ok(n) => {
                if n == 0 && !octets.is_empty() {
                    self.failures = self.failures.wrapping_add(1);
                }
                Ok(n)
            }
            Err(fault) => {
                self.failures = self.failures.wrapping_add(1);
                Err(fault)
            }
        }
    }
}

/// One write, tried again where a signal interrupted it.
fn write_again<W: Write>(writer: &mut W, octets: &[u8]) -> Result<usize, DeviceFault>
    ensures bound { WritesAtMost result octets.now }
    ensures ok { IfOk result (λ n. Appends (W.contents writer.old) (W.contents writer.new) (take n octets.now)) }
    ensures err { OnErr result (Keeps (W.contents writer.old) (W.contents writer.new)) }
{
    for _ in 0..TRIES {
        match writer.write(octets) {
            Ok(n) => return Ok(n),
            Err(error) => {
                if error.kind() != ErrorKind::Interrupted {
                    return Err(DeviceFault);
                }
            }
        }
    }
    Err(DeviceFault)
}
