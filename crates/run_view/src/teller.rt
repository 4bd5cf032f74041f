//! An output of blocks.
ghost use Rattle.std.specs.Prelude.{◌≡◌, ◌≤◌, ◌+◌, ◌++◌, false, length};
ghost use Rattle.pcap.specs.Record.{longest};
ghost use Rattle.pcapng_input.specs.BlockText.{block_text};
ghost use Rattle.decision_objects.specs.Writing.{Tells};
ghost use Rattle.run_view.specs.Blocks.{block_of, packet_block, packet_front};

use crate::blocks::ENHANCED_PACKET;
use crate::numbers::{block_front, packet_front, put_four};
use crate::packet::{Packet, Remark, put_remark};
use decision_lines::Line;
use pcap::stream::Output;
use std::marker::Model;

/// An output of blocks, seen by contracts as what was told to it. Once a write has failed, or took none of some octets, nothing more
/// is written.
#[derive(Drop)]
pub(crate) struct Teller<W: Output> {
    output: W,
    is_failed: bool,
}

impl<W: Output> Model for Teller<W> {
    ghost use Rattle.decision_objects.specs.Writing.{Told};

    ghost Value = { Told };

    ghost view = { λ t. record { written = W.written t.output; failures = W.failures t.output; is_failed = t.is_failed } };
}

impl<W: Output> Teller<W> {
    /// One that goes on where an output stands.
    pub(crate) fn new(output: W) -> Teller<W>
        ensures { result ≡ record { written = W.written output; failures = W.failures output; is_failed = false } }
    {
        Teller {
            output,
            is_failed: false,
        }
    }

    /// Whether a write failed.
    pub(crate) fn is_failed(&self) -> bool
        ensures { result ≡ self.now.is_failed }
    {
        self.is_failed
    }

    /// The output.
    pub(crate) fn into_output(self) -> W
        ensures written { W.written result ≡ self.written }
        ensures failures { W.failures result ≡ self.failures }
    {
        let Teller { output, .. } = self;
        output
    }

    /// Tells the block of this type whose body stands in a line.
    #[inline]
    pub(crate) fn tell_block(&mut self, kind: u32, body: &mut Line)
        requires room { length body.old ≤ 65532 }
        ensures { Tells self.old self.new (block_text (block_of kind body.old)) }
    {
        let size = (12 + body.text().len()) as u32;
        put_four(body, size);
        self.tell(&block_front(kind, size), &[], body.text());
    }

    /// Tells a packet and what is said of it, which is put together in a line.
    #[inline]
    pub(crate) fn tell_packet(&mut self, packet: &Packet, remark: &Remark, line: &mut Line)
        requires size { length packet.now.octets ≤ longest }
        requires short { length remark.now.comment ≤ 65000 }
        ensures { Tells self.old self.new (block_text (packet_block packet.now remark.now)) }
    {
        let captured = packet.octets.len();
        put_remark(line, captured, remark);
        self.tell_behind(packet, line);
    }

    /// Tells a packet, behind whose octets stands what is in a line.
    #[inline]
    fn tell_behind(&mut self, packet: &Packet, line: &mut Line)
        requires size { length packet.now.octets ≤ longest }
        requires room { length line.old ≤ 65532 }
        ensures { Tells self.old self.new (block_text (block_of 6
            (packet_front packet.now.interface packet.now.moment (length packet.now.octets) packet.now.original
            ++ (packet.now.octets ++ line.old)))) }
    {
        let captured = packet.octets.len() as u32;
        let size = 32 + captured + line.text().len() as u32;
        put_four(line, size);
        let head = packet_front(packet.interface, packet.moment, captured, packet.original);
        self.tell(&block_front(ENHANCED_PACKET, size), &head, packet.octets);
        self.tell(&[], &[], line.text());
    }

    /// Tells three texts, one behind another, of which the first two are short.
    #[inline]
    fn tell(&mut self, front: &[u8], head: &[u8], body: &[u8])
        requires { length front.now + length head.now ≤ 102 }
        ensures { Tells self.old self.new (front.now ++ (head.now ++ body.now)) }
    {
        if !self.is_failed {
            self.is_failed = self
                .output
                .write_gathered(front, head, &[], &[], body)
                .is_err();
        }
    }
}
