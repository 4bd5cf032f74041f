//! A step of a pass over a pcapng text.
ghost use Rattle.std.specs.Prelude.{IfOk};
ghost use Rattle.split_on_files.specs.Pass.{DescribesHeld, IsPlaced, StepsDescribed, TellsEach, TellsHeld};
ghost use Rattle.pcapng_input.specs.Filled.{text_left};
ghost use Rattle.pcapng_input.specs.Stops.{StopsFor};

use crate::capture_split::lanes::Lanes;
use crate::capture_split::taken::Taken;
use pcap::stream::Input;
use pcapng_input::{BlockFault, Filled, Gathered, NextBlock, Stop, fill, next_block};

/// The octets of a block that aren't its body.
const AROUND_BODY: usize = 12;

/// What comes next in a pcapng text.
#[derive(Clone, Copy)]
pub enum Step {
    /// A block.
    Block(Taken),
    /// The end of the text, within a block where it is cut.
    Ended { is_cut: bool },
}

/// Takes the block that what is held begins with, or tells how the text ends there.
#[tactic(auto, using(
// what is told, and described, of the next block
crate::proofs::Passing::next_taken, crate::proofs::Passing::next_described,
// what is held is a whole block, is cut, or is refused
crate::proofs::Passing::held_whole, crate::proofs::Passing::held_cut, crate::proofs::Passing::held_refused,
// where what is behind it stands
crate::proofs::Passing::placed_behind))]
fn take_held<R: Input>(
    gathered: &mut Gathered<R>,
    lanes: &mut Lanes,
    told: &mut Vec<u8>,
) -> Result<Step, Stop>
    requires placed { IsPlaced lanes.old gathered.old }
    ensures tells { IfOk result (TellsHeld lanes.old lanes.new gathered.old gathered.new told.new.items) }
    ensures described { IfOk result (DescribesHeld lanes.old.section lanes.new.section gathered.old told.new.items) }
    ensures placed { IfOk result (λ _. IsPlaced lanes.new gathered.new) }
    ensures stops { StopsFor ⊥ gathered.old.supply gathered.new.supply result }
{
    match next_block(lanes.order(), gathered.held()) {
        NextBlock::Another(block, _) => {
            let size = AROUND_BODY + block.body.len();
            let Ok(taken) = lanes.take(&block, told) else {
                return Err(Stop::NoMemory);
            };
            gathered.forget(size);
            Ok(Step::Block(taken))
        }
        NextBlock::AllRead => Ok(Step::Ended { is_cut: false }),
        NextBlock::CutShort => Ok(Step::Ended { is_cut: true }),
        NextBlock::Refused(fault) => Ok(Step::Block(Taken::Refused(lanes.fault(fault)))),
    }
}

/// Takes the next block of a pcapng text, or tells how the text ends. Where the block tells a packet, the text of its record is
/// put in place of what stood in `told`, and where it describes an interface, the name of that, empty where it has none.
///
/// `Below`: a read failed, or none may be made any more. `NoMemory`: memory was refused. No more steps can be made then.
#[tactic(auto, using(
// what is told, and described, of what is held
crate::proofs::Passing::next_held, crate::proofs::Passing::described_held,
// a block that is passed over is whole, is cut, or ends with another length
crate::proofs::Passing::passed_block, crate::proofs::Passing::passed_cut, crate::proofs::Passing::passed_unequal,
// where what is behind it stands
crate::proofs::Passing::placed_past))]
pub fn take_next<R: Input>(
    gathered: &mut Gathered<R>,
    lanes: &mut Lanes,
    told: &mut Vec<u8>,
) -> Result<Step, Stop>
    requires placed { IsPlaced lanes.old gathered.old }
    ensures tells { IfOk result (TellsEach lanes.old lanes.new gathered.old gathered.new told.new.items) }
    ensures described { IfOk result (StepsDescribed lanes.old.section lanes.new.section (text_left gathered.old) told.new.items) }
    ensures placed { IfOk result (λ _. IsPlaced lanes.new gathered.new) }
    ensures stops { StopsFor ⊥ gathered.old.supply gathered.new.supply result }
{
    match fill(gathered, lanes.order()) {
        Ok(Filled::Next) => take_held(gathered, lanes, told),
        Ok(Filled::Passed(size)) => {
            lanes.skip(size as u64);
            Ok(Step::Block(Taken::Nothing))
        }
        Ok(Filled::Cut) => Ok(Step::Ended { is_cut: true }),
        Ok(Filled::Unequal) => {
            let fault = lanes.fault(BlockFault::BadLength);
            Ok(Step::Block(Taken::Refused(fault)))
        }
        Err(stop) => Err(stop),
    }
}
