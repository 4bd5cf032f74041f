//! The step of a block for all interfaces at once.
ghost use Rattle.std.specs.Prelude.{◌≡◌, ◌≤◌, ◌<◌, ◌+◌, ◌^◌, [], ◌∷◌, ◌++◌, true, Some, length, IfNone, IfOk, IfSome, OnOk};
ghost use Rattle.pcap.specs.Record.{last_moment};
ghost use Rattle.split_on_files.specs.Lanes.{beginning, lane_at};
ghost use Rattle.split_on_files.specs.Steps.{IsLengthened, IsOf, IsOfNone, PlacesBehind, TellsAll, TellsDescribed, lanes_past, same_past};
ghost use Rattle.split_on_files.specs.Steps.{section_past};
ghost use Rattle.pcapng_input.specs.Meaning.{IsMeantWithinLimits, block_meaning, interface_named, most_interfaces};
ghost use Rattle.pcapng_input.specs.declared.interface.Selection.TheVariants.{All};

use crate::capture_split::lane::{Lane, empty_lane};
use crate::capture_split::taken::Taken;
use pcap::text::Order;
use pcapng_input::{
    Block, BlockFault, BlockMeaning, Interface, PcapngFault, Selection, block_meaning,
    interface_named,
};
use std::alloc::{AllocError, Global};
use std::marker::Model;

mod others;
mod packets;

/// The octets of a block that aren't its body.
const AROUND_BODY: u64 = 12;

/// The octets of a block.
fn size_of(block: &Block<'_>) -> u64
    ensures { result ≡ 12 + length block.now.body }
{
    AROUND_BODY + block.body.len() as u64
}

/// What is known in front of a block: of its section, and of each interface's packets by its number.
#[derive(Drop)]
pub struct Lanes {
    order: Option<Order>,
    interfaces: Vec<Interface>,
    blocks: u64,
    offset: u64,
    lanes: Vec<Lane>,
}

impl Model for Lanes {
    ghost use Rattle.std.specs.Prelude.{◌≤◌, length};
    ghost use Rattle.split_on_files.specs.Steps.{AllTaken, AllWithin, Lanes};

    ghost Value = { Lanes };

    ghost view = { λ l. record {
      section = record { order = l.order; interfaces = l.interfaces.items; blocks = l.blocks; offset = l.offset };
      lanes = l.lanes.items;
    } };

    ghost invariant = { λ l. AllTaken l.interfaces.items × AllWithin l.blocks l.lanes.items
        × (length l.interfaces.items ≤ length l.lanes.items) };
}

impl Lanes {
    /// In front of the first block.
    pub fn new(alloc: Global) -> Lanes
        ensures { result ≡ record { section = beginning; lanes = [] } }
    {
        Lanes {
            order: None,
            interfaces: Vec::new(alloc),
            blocks: 0,
            offset: 0,
            lanes: Vec::new(alloc),
        }
    }

    /// The byte order of the section, if there is one.
    pub fn order(&self) -> Option<Order>
        ensures { result ≡ self.now.section.order }
    {
        self.order
    }

    /// A fault of the block that stands here.
    pub fn fault(&self, fault: BlockFault) -> PcapngFault
        requires { self.now.section.blocks + 1 < 2 ^ 64 }
        ensures { result ≡ record { fault = fault; block = self.now.section.blocks + 1; offset = self.now.section.offset } }
    {
        PcapngFault {
            fault,
            block: self.blocks + 1,
            offset: self.offset,
        }
    }

    /// The first fault of the packets of the interface with this number, where one was met.
    #[tactic(auto, using(crate::proofs::Told::lane_found, crate::proofs::Told::lane_none))]
    pub fn fault_of(&self, number: u32) -> Option<PcapngFault>
        ensures { result ≡ (lane_at self.now.lanes number).fault }
    {
        match self.lanes.get(number as usize) {
            Some(lane) => lane.fault,
            None => None,
        }
    }

    /// How many packets of the interface with this number were left out, since they are outbound.
    #[tactic(auto, using(crate::proofs::Told::lane_found, crate::proofs::Told::lane_none))]
    pub fn left_out_of(&self, number: u32) -> u64
        ensures { result ≡ (lane_at self.now.lanes number).left_out }
    {
        match self.lanes.get(number as usize) {
            Some(lane) => lane.left_out,
            None => 0,
        }
    }

    /// What is known of the packets of the interface with this number.
    #[tactic(auto, using(crate::proofs::Told::within_get, crate::proofs::Told::lane_default))]
    fn lane(&self, number: u32) -> Lane
        requires { number < length self.now.lanes }
        ensures lane { result ≡ lane_at self.now.lanes number }
        ensures last { result.last ≤ last_moment }
        ensures left_out { result.left_out ≤ self.now.section.blocks }
    {
        self.lanes[number as usize]
    }

    /// What a block means where all interfaces are asked for, behind a packet at this moment.
    fn meaning<'a>(&self, last: u64, block: &Block<'a>) -> Result<BlockMeaning<'a>, BlockFault>
        requires { last ≤ last_moment }
        ensures value { result ≡ block_meaning All self.now.section.interfaces last block.now }
        ensures limits { IfOk result IsMeantWithinLimits }
    {
        block_meaning(Selection::All, self.interfaces.as_slice(), last, block)
    }

    /// Goes on behind a block of so many octets that makes nothing of any interface.
    #[tactic(auto, using(crate::proofs::Told::within_more))]
    pub fn skip(&mut self, size: u64)
        requires blocks { self.old.section.blocks + 1 < 2 ^ 64 }
        requires offset { self.old.section.offset + size < 2 ^ 64 }
        ensures { self.new ≡ same_past self.old size }
    {
        self.blocks += 1;
        self.offset += size;
    }

    /// Goes on behind a block of so many octets that makes this of the packets of one interface.
    #[tactic(auto, using(crate::proofs::Told::noted))]
    fn note(&mut self, size: u64, number: u32, lane: Lane)
        requires blocks { self.old.section.blocks + 1 < 2 ^ 64 }
        requires offset { self.old.section.offset + size < 2 ^ 64 }
        requires number { number < length self.old.lanes }
        requires last { lane.last ≤ last_moment }
        requires left_out { lane.left_out ≤ self.old.section.blocks + 1 }
        ensures { self.new ≡ lanes_past self.old size number lane }
    {
        self.blocks += 1;
        self.offset += size;
        self.lanes[number as usize] = lane;
    }

    /// Goes on behind a section header of so many octets.
    #[tactic(auto, using(crate::proofs::Told::within_more))]
    fn begin(&mut self, size: u64, order: Order)
        requires blocks { self.old.section.blocks + 1 < 2 ^ 64 }
        requires offset { self.old.section.offset + size < 2 ^ 64 }
        ensures { self.new ≡ record {
          section = section_past (record self.old.section { order = Some order; interfaces = [] }) size;
          lanes = self.old.lanes;
        } }
    {
        self.order = Some(order);
        self.interfaces.clear();
        self.blocks += 1;
        self.offset += size;
    }

    /// Goes on behind the description of an interface, of so many octets, and says its number.
    #[tactic(auto, using(
    // one lane more
    crate::proofs::Told::within_more, crate::proofs::Told::within_append, crate::proofs::Told::lengthened,
    // its interface is selected
    crate::proofs::Chosen::taken_append))]
    fn describe(&mut self, size: u64, interface: Interface) -> Result<u32, AllocError>
        requires blocks { self.old.section.blocks + 1 < 2 ^ 64 }
        requires offset { self.old.section.offset + size < 2 ^ 64 }
        requires few { length self.old.section.interfaces < most_interfaces }
        requires selected { interface.is_selected ≡ true }
        ensures section { OnOk result (self.new.section ≡ section_past (record self.old.section {
          interfaces = self.old.section.interfaces ++ interface ∷ [];
        }) size) }
        ensures lanes { OnOk result (IsLengthened self.old.lanes self.new.lanes) }
        ensures number { IfOk result (λ number. number ≡ length self.old.section.interfaces) }
    {
        let number = self.interfaces.len();
        if number == self.lanes.len() {
            self.lanes.push(empty_lane())?;
        }
        self.interfaces.push(interface)?;
        self.blocks += 1;
        self.offset += size;
        Ok(number as u32)
    }

    /// The number of the interface whose packet a block holds, where it was described.
    #[tactic(auto, using(crate::proofs::Meant::of_none, crate::proofs::Meant::of_unknown))]
    fn owner(&self, block: &Block<'_>) -> Option<u32>
        ensures some { IfSome result (IsOf self.now block.now) }
        ensures none { IfNone result (IsOfNone self.now.section.interfaces (interface_named block.now)) }
    {
        let number = interface_named(block)?;
        if number as usize >= self.interfaces.len() {
            return None;
        }
        Some(number)
    }

    /// Takes a block. Where it tells a packet, the text of its record is put in place of what stood in `told`, and where it
    /// describes an interface, the name of that.
    pub fn take(&mut self, block: &Block<'_>, told: &mut Vec<u8>) -> Result<Taken, AllocError>
        requires blocks { self.old.section.blocks + 1 < 2 ^ 64 }
        requires offset { self.old.section.offset + (12 + length block.now.body) < 2 ^ 64 }
        ensures tells { IfOk result (λ t. TellsAll self.old self.new block.now t told.new.items) }
        ensures described { IfOk result (λ t. TellsDescribed self.old.section self.new.section block.now t told.new.items) }
        ensures place { IfOk result (PlacesBehind self.old.section self.new.section (12 + length block.now.body)) }
    {
        match self.owner(block) {
            Some(number) => self.take_packet(block, number, told),
            None => self.take_other(block, told),
        }
    }
}
