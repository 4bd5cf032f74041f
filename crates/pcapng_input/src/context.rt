//! What is known in front of a block.
ghost use Rattle.std.specs.Prelude.{◌≡◌, ◌≤◌, ◌<◌, ◌+◌, ◌^◌, length, take, None, Some, IfOk, IfErr, IfSome, OnErr, OnOk, Ok, Err};
ghost use Rattle.pcap.specs.Record.{IsWithinLimits};
ghost use Rattle.pcapng_input.specs.Adapted.{behind_other};
ghost use Rattle.pcapng_input.specs.Context.{IsStepError};
ghost use Rattle.pcapng_input.specs.Meaning.{IsMeantWithinLimits, block_meaning};
ghost use Rattle.pcapng_input.specs.Reading.{block_fault_at, context_behind, record_meant, start, step_of};
ghost use Rattle.pcapng_input.specs.Front.{GivesPackets};

use crate::block::Block;
use crate::fault::{BlockFault, PcapngError, PcapngFault};
use crate::front::{FrontPacket, front_packet};
use crate::interface::{Interface, Selection};
use crate::meaning::{BlockMeaning, block_meaning};
use crate::ready::put_record;
use pcap::text::{Order, Record};
use std::alloc::{AllocError, Global};
use std::marker::Model;

/// The octets of a block that aren't its body.
const AROUND_BODY: u64 = 12;

/// How many octets of a text were used, and how many were given.
#[derive(Clone, Copy)]
pub struct Given {
    pub used: usize,
    pub given: usize,
}

/// What is known in front of a block: its section, the packet before it, how many were left out, and its place.
#[derive(Drop)]
pub struct Context {
    order: Option<Order>,
    interfaces: Vec<Interface>,
    last: u64,
    left_out: u64,
    blocks: u64,
    offset: u64,
}

impl Model for Context {
    ghost use Rattle.std.specs.Prelude.{◌≤◌};
    ghost use Rattle.pcap.specs.Record.{last_moment};
    ghost use Rattle.pcapng_input.specs.Reading.{Context};

    ghost Value = { Context };

    ghost view = { λ c. record {
      order = c.order;
      interfaces = c.interfaces.items;
      last = c.last;
      left_out = c.left_out;
      blocks = c.blocks;
      offset = c.offset;
    } };

    ghost invariant = { λ c. (c.last ≤ last_moment) × (c.left_out ≤ c.blocks) };
}

impl Context {
    /// In front of the first block.
    pub fn new(alloc: Global) -> Context
        ensures { result ≡ start }
    {
        Context {
            order: None,
            interfaces: Vec::new(alloc),
            last: 0,
            left_out: 0,
            blocks: 0,
            offset: 0,
        }
    }

    /// The byte order of the section, if there is one.
    pub fn order(&self) -> Option<Order>
        ensures { result ≡ self.now.order }
    {
        self.order
    }

    /// How many packets were left out.
    pub fn left_out(&self) -> u64
        ensures { result ≡ self.now.left_out }
    {
        self.left_out
    }

    /// A fault of the block that stands here.
    pub fn fault(&self, fault: BlockFault) -> PcapngFault
        requires { self.now.blocks + 1 < 2 ^ 64 }
        ensures { result ≡ block_fault_at self.now fault }
    {
        PcapngFault {
            fault,
            block: self.blocks + 1,
            offset: self.offset,
        }
    }

    /// Goes on behind a block of so many octets that says nothing.
    pub fn skip(&mut self, size: u64)
        requires blocks { self.old.blocks + 1 < 2 ^ 64 }
        requires offset { self.old.offset + size < 2 ^ 64 }
        ensures { self.new ≡ behind_other self.old size }
    {
        self.blocks += 1;
        self.offset += size;
    }

    /// Gives the packets that a text begins with as records, as far as they stand whole there and have room, and passes over
    /// those that aren't selected.
    #[inline(always)]
    pub fn give_packets(&mut self, text: &[u8], room: &mut [u8]) -> Given
        requires blocks { self.old.blocks + length text.now < 2 ^ 64 }
        requires offset { self.old.offset + length text.now < 2 ^ 64 }
        ensures used { result.used ≤ length text.now }
        ensures given { result.given ≤ length room.new }
        ensures gives { GivesPackets self.old self.new text.now result.used (take result.given room.new) }
    {
        // a loop for each byte order
        match self.order {
            Some(Order::Little) => self.give_in(Order::Little, text, room),
            Some(Order::Big) => self.give_in(Order::Big, text, room),
            None => Given { used: 0, given: 0 },
        }
    }

    /// The same in a section of this byte order.
    #[inline(always)]
    fn give_in(&mut self, order: Order, text: &[u8], room: &mut [u8]) -> Given
        requires order { self.old.order ≡ Some order }
        requires blocks { self.old.blocks + length text.now < 2 ^ 64 }
        requires offset { self.old.offset + length text.now < 2 ^ 64 }
        ensures used { result.used ≤ length text.now }
        ensures given { result.given ≤ length room.new }
        ensures gives { GivesPackets self.old self.new text.now result.used (take result.given room.new) }
    {
        let mut done = Given { used: 0, given: 0 };
        loop {
            let rest = &text[done.used..];
            match front_packet(order, self.interfaces.as_slice(), self.last, rest) {
                FrontPacket::Other(size) => {
                    self.skip(size as u64);
                    done.used += size;
                }
                FrontPacket::Selected(size, packet) => {
                    let Some(end) = put_record(room, done.given, &packet) else {
                        return done;
                    };
                    self.last = packet.moment;
                    self.skip(size as u64);
                    done.used += size;
                    done.given = end;
                }
                FrontPacket::Unknown => return done,
            }
        }
    }

    /// What the block that stands here means.
    pub fn meaning<'a>(
        &self,
        selection: Selection<'_>,
        block: &Block<'a>,
    ) -> Result<BlockMeaning<'a>, PcapngFault>
        requires { self.now.blocks + 1 < 2 ^ 64 }
        ensures value { IfOk result (λ meant. block_meaning selection.entry self.now.interfaces self.now.last block.now ≡ Ok meant) }
        ensures fault { IfErr result
            (λ fault. block_meaning selection.entry self.now.interfaces self.now.last block.now ≡ Err fault.fault) }
        ensures place { IfErr result (λ fault. fault ≡ block_fault_at self.now fault.fault) }
        ensures limits { IfOk result IsMeantWithinLimits }
    {
        match block_meaning(selection, self.interfaces.as_slice(), self.last, block) {
            Ok(meant) => Ok(meant),
            Err(fault) => Err(self.fault(fault)),
        }
    }

    /// Goes on behind a block that means this. After an error nothing has changed, and the block means no record.
    pub fn go_on(&mut self, block: &Block<'_>, meant: &BlockMeaning<'_>) -> Result<(), AllocError>
        requires blocks { self.old.blocks + 1 < 2 ^ 64 }
        requires offset { self.old.offset + (12 + length block.now.body) < 2 ^ 64 }
        requires limits { IsMeantWithinLimits meant.now }
        ensures behind { OnOk result (self.new ≡ context_behind self.old block.now meant.now) }
        ensures err { OnErr result (self.new ≡ self.old) }
        ensures none { OnErr result (record_meant meant.now ≡ None) }
    {
        match meant {
            BlockMeaning::Section => {
                self.order = Some(block.order);
                self.interfaces.clear();
            }
            BlockMeaning::Described(interface) => self.interfaces.push(*interface)?,
            BlockMeaning::Packet(record) => self.last = record.moment,
            BlockMeaning::Outbound => self.left_out += 1,
            BlockMeaning::Nothing => {}
        }
        self.blocks += 1;
        self.offset += AROUND_BODY + block.body.len() as u64;
        Ok(())
    }

    /// Goes on behind a block, and answers its packet as a record, if it has one that is selected. After an error
    /// nothing has changed.
    #[tactic(auto, unfolding(crate::specs::Reading::step_of))]
    pub fn step<'a>(
        &mut self,
        selection: Selection<'_>,
        block: &Block<'a>,
    ) -> Result<Option<Record<'a>>, PcapngError>
        requires blocks { self.old.blocks + 1 < 2 ^ 64 }
        requires offset { self.old.offset + (12 + length block.now.body) < 2 ^ 64 }
        ensures step { IfOk result (λ found. step_of selection.entry self.old block.now
            ≡ Ok (record { context = self.new; found = found })) }
        ensures fault { IfErr result (IsStepError (step_of selection.entry self.old block.now) self.old) }
        ensures blocks { OnOk result (self.new.blocks ≡ self.old.blocks + 1) }
        ensures offset { OnOk result (self.new.offset ≡ self.old.offset + (12 + length block.now.body)) }
        ensures err { OnErr result (self.new ≡ self.old) }
        ensures limits { IfOk result (λ found. IfSome found IsWithinLimits) }
    {
        let meant = match self.meaning(selection, block) {
            Ok(meant) => meant,
            Err(fault) => return Err(PcapngError::Faulty(fault)),
        };
        self.go_on(block, &meant)?;
        Ok(meant.record())
    }
}
