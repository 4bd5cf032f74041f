//! The step of a block that holds no packet of an interface that was described.
ghost use Rattle.std.specs.Prelude.{◌≡◌, ◌<◌, ◌+◌, ◌^◌, Ok, Err, length, IfOk};
ghost use Rattle.split_on_files.specs.Meanings.{IsDescribedIn, IsPlain};
ghost use Rattle.split_on_files.specs.Steps.{IsOfNone, PlacesBehind, TellsAll, TellsDescribed};
ghost use Rattle.pcapng_input.specs.Meaning.{block_meaning, interface_named};
ghost use Rattle.pcapng_input.specs.declared.interface.Selection.TheVariants.{All};

use super::{Lanes, size_of};
use crate::capture_split::record_text::put_name;
use crate::capture_split::taken::Taken;
use pcapng_input::{Block, BlockFault, BlockMeaning};
use std::alloc::AllocError;

impl Lanes {
    /// What a block means that holds no packet of an interface that was described.
    #[tactic(auto, using(crate::proofs::Meant::other_meant, crate::proofs::Meant::described_meant))]
    fn other_meaning<'a>(&self, block: &Block<'a>) -> Result<BlockMeaning<'a>, BlockFault>
        requires none { IsOfNone self.now.section.interfaces (interface_named block.now) }
        ensures value { result ≡ block_meaning All self.now.section.interfaces 0 block.now }
        ensures plain { IsPlain result }
        ensures described { IsDescribedIn self.now.section.interfaces result }
    {
        self.meaning(0, block)
    }

    /// Takes a block that holds no packet of an interface that was described, and makes the name of an interface ready that it
    /// describes.
    #[tactic(auto, using(
    // a section header, and a description
    crate::proofs::Told::tells_section, crate::proofs::Told::tells_described, crate::proofs::Told::one_more,
    // a block that means nothing, and a fault
    crate::proofs::Told::tells_none, crate::proofs::Told::tells_refused))]
    pub(super) fn take_other(
        &mut self,
        block: &Block<'_>,
        told: &mut Vec<u8>,
    ) -> Result<Taken, AllocError>
        requires none { IsOfNone self.old.section.interfaces (interface_named block.now) }
        requires blocks { self.old.section.blocks + 1 < 2 ^ 64 }
        requires offset { self.old.section.offset + (12 + length block.now.body) < 2 ^ 64 }
        ensures tells { IfOk result (λ t. TellsAll self.old self.new block.now t told.new.items) }
        ensures described { IfOk result (λ t. TellsDescribed self.old.section self.new.section block.now t told.new.items) }
        ensures place { IfOk result (PlacesBehind self.old.section self.new.section (12 + length block.now.body)) }
    {
        match self.other_meaning(block) {
            Ok(BlockMeaning::Section) => {
                self.begin(size_of(block), block.order);
                Ok(Taken::Nothing)
            }
            Ok(BlockMeaning::Described(interface)) => {
                put_name(told, block)?;
                let number = self.describe(size_of(block), interface)?;
                Ok(Taken::Described(number))
            }
            Ok(BlockMeaning::Nothing) => {
                self.skip(size_of(block));
                Ok(Taken::Nothing)
            }
            // A packet's interface was described.
            Ok(BlockMeaning::Packet(_)) => Ok(Taken::Nothing),
            Ok(BlockMeaning::Outbound) => Ok(Taken::Nothing),
            Err(fault) => Ok(Taken::Refused(self.fault(fault))),
        }
    }
}
