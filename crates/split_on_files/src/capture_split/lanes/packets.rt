//! The step of a block that holds a packet of an interface that was described.
ghost use Rattle.std.specs.Prelude.{◌≡◌, ◌≤◌, ◌<◌, ◌+◌, ◌^◌, Ok, Err, is_some, length, IfOk};
ghost use Rattle.pcap.specs.Record.{last_moment};
ghost use Rattle.split_on_files.specs.Meanings.{IsOfPacket};
ghost use Rattle.split_on_files.specs.Steps.{IsOf, PlacesBehind, TellsAll, TellsDescribed};
ghost use Rattle.pcapng_input.specs.Meaning.{IsMeantWithinLimits, block_meaning};
ghost use Rattle.pcapng_input.specs.declared.interface.Selection.TheVariants.{All};

use super::{Lanes, size_of};
use crate::capture_split::lane::{at_fault, behind_outbound, behind_packet};
use crate::capture_split::record_text::put_record;
use crate::capture_split::taken::Taken;
use pcapng_input::{Block, BlockFault, BlockMeaning};
use std::alloc::AllocError;

impl Lanes {
    /// What a block means that holds a packet of the interface with this number, behind one at this moment.
    #[tactic(auto, using(crate::proofs::Meant::packet_meant))]
    fn packet_meaning<'a>(
        &self,
        last: u64,
        block: &Block<'a>,
        number: u32,
    ) -> Result<BlockMeaning<'a>, BlockFault>
        requires last { last ≤ last_moment }
        requires of { IsOf self.now block.now number }
        ensures value { result ≡ block_meaning All self.now.section.interfaces last block.now }
        ensures limits { IfOk result IsMeantWithinLimits }
        ensures packet { IsOfPacket result }
    {
        self.meaning(last, block)
    }

    /// Takes a block that holds a packet of the interface with this number, and makes its record ready.
    #[tactic(auto, using(
    // one that is taken, and one that is left out
    crate::proofs::Told::tells_packet, crate::proofs::Told::tells_outbound,
    // the first fault of its interface, and what is behind that
    crate::proofs::Told::tells_faulty, crate::proofs::Told::tells_behind_fault,
    // one that means nothing
    crate::proofs::Told::tells_idle))]
    pub(super) fn take_packet(
        &mut self,
        block: &Block<'_>,
        number: u32,
        told: &mut Vec<u8>,
    ) -> Result<Taken, AllocError>
        requires of { IsOf self.old block.now number }
        requires blocks { self.old.section.blocks + 1 < 2 ^ 64 }
        requires offset { self.old.section.offset + (12 + length block.now.body) < 2 ^ 64 }
        ensures tells { IfOk result (λ t. TellsAll self.old self.new block.now t told.new.items) }
        ensures described { IfOk result (λ t. TellsDescribed self.old.section self.new.section block.now t told.new.items) }
        ensures place { IfOk result (PlacesBehind self.old.section self.new.section (12 + length block.now.body)) }
    {
        let lane = self.lane(number);
        if lane.fault.is_some() {
            self.skip(size_of(block));
            return Ok(Taken::Nothing);
        }
        match self.packet_meaning(lane.last, block, number) {
            Ok(BlockMeaning::Packet(packet)) => {
                put_record(told, &packet)?;
                self.note(size_of(block), number, behind_packet(lane, &packet));
                Ok(Taken::Packet(number))
            }
            Ok(BlockMeaning::Outbound) => {
                self.note(size_of(block), number, behind_outbound(lane));
                Ok(Taken::Nothing)
            }
            Ok(BlockMeaning::Nothing) => {
                self.skip(size_of(block));
                Ok(Taken::Nothing)
            }
            // The block of a packet means neither.
            Ok(BlockMeaning::Section) => Ok(Taken::Nothing),
            Ok(BlockMeaning::Described(_)) => Ok(Taken::Nothing),
            Err(fault) => {
                let met = self.fault(fault);
                self.note(size_of(block), number, at_fault(lane, met));
                Ok(Taken::Nothing)
            }
        }
    }
}
