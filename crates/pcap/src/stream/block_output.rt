//! An output in blocks.
//!
//! This is a type of its own and not std's buffered writer, since a write into it is one copy and one comparison: 60 to 100
//! instructions an event fewer. Where handing a block on fails, what was handed on leaves the block, so that nothing is written
//! twice. `finish` hands the rest on, and has to be called behind every run, whatever stopped it.
ghost use Rattle.std.specs.Prelude.{◌≡◌, ◌≤◌, ◌<◌, ◌+◌, [], ◌++◌, IfOk, OnErr, OnOk, length, take};
ghost use Rattle.std.specs.Io.{WritesAtMost};
ghost use Rattle.std.specs.Io.KnownBytes.{Appends, Keeps, WriteAppends};
ghost use Rattle.pcap.specs.Block.{HoldsBack, HoldsRest, IsRest, must_hand_on, told};
ghost use Rattle.pcap.specs.Counts.{CountsRefusals, GoesOnBy};
ghost use Rattle.pcap.specs.Sink.{AppendsPart};

use crate::stream::device::DeviceFault;
use crate::stream::fault::WriteFault;
use crate::stream::output::Output;
use crate::stream::room::Room;
use crate::text::RECORD_HEADER_LENGTH;
use std::alloc::{AllocError, Global};
use std::marker::Model;

/// An output with a block in front of it: octets that were written go on once the block is full.
///
/// What was written is what the output has, and then the block. `finish` hands the rest on; what is let go before is lost.
/// Contracts see the output and the octets in the block.
#[derive(Drop)]
pub struct BlockOutput<W: Output> {
    output: W,
    block: Room,
}

impl<W: Output> Model for BlockOutput<W> {
    ghost use Rattle.pcap.specs.Block.{Block};

    ghost Value = { Block };

    ghost view = { λ b. record {
      written = W.written b.output;
      failures = W.failures b.output;
      held = b.block.held;
      size = b.block.size;
    } };
}

impl<W: Output> BlockOutput<W> {
    /// An output that goes on where another stands, in blocks of so many octets. With blocks of none each write goes on at
    /// once. `AllocError`: there was no room for the block.
    pub fn new(alloc: Global, output: W, size: usize) -> Result<BlockOutput<W>, AllocError>
    where
        W: Drop,
        ensures { IfOk result (λ made. made ≡ record {
          written = W.written output;
          failures = W.failures output;
          held = [];
          size = size;
        }) }
    {
        let block = Room::new(alloc, size)?;
        Ok(BlockOutput { output, block })
    }

    /// Hands on what the block holds. After a fault it holds what was not handed on.
    pub fn finish(&mut self) -> Result<(), WriteFault>
        ensures told { Keeps (told self.old) (told self.new) }
        ensures all { OnOk result (self.new.held ≡ []) }
        ensures gone_on { OnOk result (Appends self.old.written self.new.written self.old.held) }
        ensures rest { OnErr result (IsRest self.old.held self.new.held) }
        ensures size { self.new.size ≡ self.old.size }
        ensures quiet { OnOk result (self.new.failures ≡ self.old.failures) }
        ensures cause { OnErr result (GoesOnBy 1 self.old.failures self.new.failures) }
    {
        let (handed, result) = self.output.hand_on(self.block.held());
        self.block.forget(handed);
        result
    }

    /// The output behind the block.
    pub fn output(&self) -> &W
        ensures written { W.written result.now ≡ self.now.written }
        ensures failures { W.failures result.now ≡ self.now.failures }
    {
        &self.output
    }

    /// The same, for good. What the block still holds is let go.
    pub fn into_inner(self) -> W
        ensures written { W.written result ≡ self.written }
        ensures failures { W.failures result ≡ self.failures }
    {
        let BlockOutput { output, block: _ } = self;
        output
    }

    /// A write that the block has no room for yet: it grows, or goes on first where its size does not allow that. What is
    /// longer than that goes on behind it.
    #[cold]
    #[inline(never)]
    fn write_on(&mut self, octets: &[u8]) -> Result<usize, DeviceFault>
        ensures bound { WritesAtMost result octets.now }
        ensures appended { WriteAppends (told self.old) (told self.new) result octets.now }
        ensures failures { CountsRefusals self.old.failures self.new.failures result (length octets.now) }
        ensures held { IfOk result (λ n. HoldsBack (length octets.now) self.old self.new (take n octets.now)) }
        ensures rest { OnErr result (HoldsRest (length octets.now) self.old self.new) }
        ensures size { self.new.size ≡ self.old.size }
    {
        if !self.block.may_hold(octets.len()) {
            if self.finish().is_err() {
                return Err(DeviceFault);
            }
            if !self.block.may_hold(octets.len()) {
                return self.output.write(octets);
            }
        }
        self.block.widen(octets.len());
        self.block.put(octets);
        Ok(octets.len())
    }

    /// The same of a write of all that five texts hold, of which some may be empty, but not all.
    #[cold]
    #[inline(never)]
    fn write_gathered_on(
        &mut self,
        before: &[u8],
        head: &[u8],
        addresses: &[u8],
        tag: &[u8],
        body: &[u8],
    ) -> Result<(), WriteFault>
        requires some { 0 < length before.now + length head.now + length addresses.now + length tag.now + length body.now }
        requires short { length before.now + length head.now + length addresses.now + length tag.now ≤ 102 }
        ensures ok { OnOk result (Appends (told self.old) (told self.new)
            (before.now ++ (head.now ++ (addresses.now ++ (tag.now ++ body.now))))) }
        ensures err { OnErr result (AppendsPart (told self.old) (told self.new)
            (before.now ++ (head.now ++ (addresses.now ++ (tag.now ++ body.now))))) }
        ensures quiet { OnOk result (self.new.failures ≡ self.old.failures) }
        ensures cause { OnErr result (GoesOnBy 1 self.old.failures self.new.failures) }
        ensures held { OnOk result (HoldsBack
            (length before.now + length head.now + length addresses.now + length tag.now + length body.now)
            self.old self.new (before.now ++ (head.now ++ (addresses.now ++ (tag.now ++ body.now))))) }
        ensures rest { OnErr result (HoldsRest
            (length before.now + length head.now + length addresses.now + length tag.now + length body.now)
            self.old self.new) }
        ensures size { self.new.size ≡ self.old.size }
    {
        let size = before.len() + head.len() + addresses.len() + tag.len() + body.len();
        if !self.block.may_hold(size) {
            self.finish()?;
            if !self.block.may_hold(size) {
                return self
                    .output
                    .write_gathered(before, head, addresses, tag, body);
            }
        }
        self.block.widen(size);
        self.block.put_gathered(before, head, addresses, tag, body);
        Ok(())
    }
}

impl<W: Output> Output for BlockOutput<W> {
    ghost use Rattle.pcap.specs.Block.{told};

    ghost written = { told };

    ghost failures = { λ b. b.failures };

    ghost held = { λ b. b.held };

    #[inline(always)]
    fn must_hand_on(&self, more: usize) -> bool
        ensures { result ≡ must_hand_on self.now more }
    {
        !self.block.may_hold(more) && !self.block.held().is_empty()
    }

    fn hand_on_held(&mut self) -> Result<(), WriteFault>
        ensures kept { Keeps (told self.old) (told self.new) }
        ensures all { OnOk result (self.new.held ≡ []) }
        ensures rest { OnErr result (IsRest self.old.held self.new.held) }
        ensures size { self.new.size ≡ self.old.size }
        ensures quiet { OnOk result (self.new.failures ≡ self.old.failures) }
        ensures cause { OnErr result (GoesOnBy 1 self.old.failures self.new.failures) }
    {
        self.finish()
    }

    #[inline]
    fn write(&mut self, octets: &[u8]) -> Result<usize, DeviceFault>
        ensures bound { WritesAtMost result octets.now }
        ensures appended { WriteAppends (told self.old) (told self.new) result octets.now }
        ensures failures { CountsRefusals self.old.failures self.new.failures result (length octets.now) }
        ensures held { IfOk result (λ n. HoldsBack (length octets.now) self.old self.new (take n octets.now)) }
        ensures rest { OnErr result (HoldsRest (length octets.now) self.old self.new) }
        ensures size { self.new.size ≡ self.old.size }
    {
        if octets.len() > self.block.free() {
            return self.write_on(octets);
        }
        self.block.put(octets);
        Ok(octets.len())
    }

    #[inline(always)]
    fn write_all(&mut self, octets: &[u8]) -> Result<(), WriteFault>
        ensures ok { OnOk result (Appends (told self.old) (told self.new) octets.now) }
        ensures err { OnErr result (AppendsPart (told self.old) (told self.new) octets.now) }
        ensures quiet { OnOk result (self.new.failures ≡ self.old.failures) }
        ensures cause { OnErr result (GoesOnBy 1 self.old.failures self.new.failures) }
        ensures held { OnOk result (HoldsBack (length octets.now) self.old self.new octets.now) }
        ensures rest { OnErr result (HoldsRest (length octets.now) self.old self.new) }
        ensures size { self.new.size ≡ self.old.size }
    {
        if octets.len() > self.block.free() {
            return self.write_gathered_on(&[], &[], &[], &[], octets);
        }
        self.block.put(octets);
        Ok(())
    }

    #[inline(always)]
    fn write_gathered(
        &mut self,
        before: &[u8],
        head: &[u8],
        addresses: &[u8],
        tag: &[u8],
        body: &[u8],
    ) -> Result<(), WriteFault>
        requires { length before.now + length head.now + length addresses.now + length tag.now ≤ 102 }
        ensures ok { OnOk result (Appends (told self.old) (told self.new)
            (before.now ++ (head.now ++ (addresses.now ++ (tag.now ++ body.now))))) }
        ensures err { OnErr result (AppendsPart (told self.old) (told self.new)
            (before.now ++ (head.now ++ (addresses.now ++ (tag.now ++ body.now))))) }
        ensures quiet { OnOk result (self.new.failures ≡ self.old.failures) }
        ensures cause { OnErr result (GoesOnBy 1 self.old.failures self.new.failures) }
        ensures held { OnOk result (HoldsBack
            (length before.now + length head.now + length addresses.now + length tag.now + length body.now)
            self.old self.new (before.now ++ (head.now ++ (addresses.now ++ (tag.now ++ body.now))))) }
        ensures rest { OnErr result (HoldsRest
            (length before.now + length head.now + length addresses.now + length tag.now + length body.now)
            self.old self.new) }
        ensures size { self.new.size ≡ self.old.size }
    {
        let size = before.len() + head.len() + addresses.len() + tag.len() + body.len();
        if size > self.block.free() {
            // a copy of a record's header goes on: so where none does, it need not stand in memory
            if let Some(header) = before.as_array::<RECORD_HEADER_LENGTH>() {
                let header = *header;
                return self.write_gathered_on(&header, head, addresses, tag, body);
            }
            return self.write_gathered_on(before, head, addresses, tag, body);
        }
        self.block.put_gathered(before, head, addresses, tag, body);
        Ok(())
    }
}
