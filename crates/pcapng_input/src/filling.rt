//! How the next block of an input comes whole into the room.
ghost use Rattle.std.specs.Prelude.{◌≡◌, ◌≤◌, ◌+◌, [], drop, length, IfOk, IfNone, IfSome};
ghost use Rattle.pcap.specs.Style.{number_of};
ghost use Rattle.pcap.specs.Supply.{Spends};
ghost use Rattle.pcapng_input.specs.Block.{longest_block};
ghost use Rattle.pcapng_input.specs.Filled.{HasFewer, IsFilled, IsLacking, IsNumberNext, IsPassedOver};
ghost use Rattle.pcapng_input.specs.Filled.{PassesBlock, PassesBody, octets_left, octets_passed};
ghost use Rattle.pcapng_input.specs.Stops.{StopsFor};

use crate::block::{EMPTY_BLOCK, LONGEST_BLOCK, NextBlock, next_block, order_at};
use crate::gathered::Gathered;
use crate::number::number4;
use crate::stop::Stop;
use pcap::stream::Input;
use pcap::text::Order;

/// The octets of a block's second length.
const SECOND_LENGTH: usize = 4;

/// How many octets are read at once where there are so many.
const AHEAD: usize = 65_536;

/// What stands in front of a text of blocks.
#[derive(Clone, Copy)]
pub enum Filled {
    /// What comes next stands in the octets that are held: a whole block, or how the text ends.
    Next,
    /// A block of so many octets, longer than those that are read, of a type that says nothing. It was passed over.
    Passed(usize),
    /// Such a block, within which the text ends.
    Cut,
    /// Such a block whose second length is another than its first.
    Unequal,
}

/// What is lacking of what comes next.
#[derive(Clone, Copy)]
pub enum Lack {
    /// Nothing.
    Nothing,
    /// So many octets are wanted.
    Octets(usize),
    /// A block that is longer than there is room for.
    Long { order: Order, size: usize },
}

/// The length that the first octets of a block tell.
fn told_size(order: Order, held: &[u8]) -> usize
    requires { 12 ≤ length held.now }
    ensures { result ≡ number_of order 4 (drop 4 held.now) }
{
    number4(order, &held[4..]) as usize
}

/// What is lacking of what comes next, by the octets that are held of it.
fn lacking(section: Option<Order>, held: &[u8]) -> Lack
    requires { length held.now ≤ longest_block }
    ensures { IsLacking section held.now result }
{
    if held.len() < EMPTY_BLOCK {
        return Lack::Octets(EMPTY_BLOCK);
    }
    let NextBlock::CutShort = next_block(section, held) else {
        return Lack::Nothing;
    };
    let Some(order) = order_at(section, held) else {
        return Lack::Nothing;
    };
    let size = told_size(order, held);
    if size > LONGEST_BLOCK {
        return Lack::Long { order, size };
    }
    Lack::Octets(size)
}

/// Passes over so many octets. It answers whether they were there.
fn pass_body<R: Input>(gathered: &mut Gathered<R>, count: usize) -> Result<bool, Stop>
    requires { gathered.old.held ≡ [] }
    ensures passed { IfOk result (PassesBody gathered.old gathered.new count) }
    ensures less { octets_left gathered.new ≤ octets_left gathered.old }
    ensures spent { Spends gathered.old.supply gathered.new.supply }
    ensures stops { StopsFor ⊥ gathered.old.supply gathered.new.supply result }
{
    let mut left = count;
    'body: while left > 0 {
        let most = if left < LONGEST_BLOCK {
            left
        } else {
            LONGEST_BLOCK
        };
        if !gathered.fetch(most, most)? {
            return Ok(false);
        }
        left -= gathered.held().len();
        gathered.clear();
    }
    Ok(true)
}

/// The number in the next four octets, which are passed over. None: there were fewer.
fn number_next<R: Input>(gathered: &mut Gathered<R>, order: Order) -> Result<Option<usize>, Stop>
    requires { gathered.old.held ≡ [] }
    ensures number { IfOk result (λ found. IfSome found (IsNumberNext order gathered.old gathered.new)) }
    ensures none { IfOk result (λ found. IfNone found (HasFewer gathered.old.supply.rest 4)) }
    ensures less { octets_left gathered.new ≤ octets_left gathered.old }
    ensures spent { Spends gathered.old.supply gathered.new.supply }
    ensures stops { StopsFor ⊥ gathered.old.supply gathered.new.supply result }
{
    'number: while gathered.held().len() < SECOND_LENGTH {
        if !gathered.fetch(SECOND_LENGTH, SECOND_LENGTH)? {
            return Ok(None);
        }
    }
    let number = number4(order, gathered.held()) as usize;
    gathered.clear();
    Ok(Some(number))
}

/// Passes over a block of which some octets are held.
fn pass_over<R: Input>(
    gathered: &mut Gathered<R>,
    order: Order,
    size: usize,
) -> Result<Filled, Stop>
    requires { length gathered.old.held + 4 ≤ size }
    ensures passed { IfOk result (IsPassedOver order size gathered.old gathered.new) }
    ensures less { IfOk result (λ f. octets_left gathered.new + octets_passed f ≤ octets_left gathered.old) }
    ensures spent { Spends gathered.old.supply gathered.new.supply }
    ensures stops { StopsFor ⊥ gathered.old.supply gathered.new.supply result }
{
    let count = size - SECOND_LENGTH - gathered.held().len();
    gathered.clear();
    if !pass_body(gathered, count)? {
        return Ok(Filled::Cut);
    }
    let Some(second) = number_next(gathered, order)? else {
        return Ok(Filled::Cut);
    };
    if second != size {
        return Ok(Filled::Unequal);
    }
    Ok(Filled::Passed(size))
}

/// Reads on until what comes next stands in what is held, or is behind.
pub fn fill<R: Input>(gathered: &mut Gathered<R>, section: Option<Order>) -> Result<Filled, Stop>
    ensures filled { IfOk result (IsFilled section gathered.old gathered.new) }
    ensures passed { IfOk result PassesBlock }
    ensures less { IfOk result (λ f. octets_left gathered.new + octets_passed f ≤ octets_left gathered.old) }
    ensures spent { Spends gathered.old.supply gathered.new.supply }
    ensures stops { StopsFor ⊥ gathered.old.supply gathered.new.supply result }
{
    'filling: loop {
        match lacking(section, gathered.held()) {
            Lack::Nothing => return Ok(Filled::Next),
            Lack::Long { order, size } => return pass_over(gathered, order, size),
            Lack::Octets(size) => {
                let most = if size < AHEAD { AHEAD } else { size };
                if !gathered.fetch(size, most)? {
                    return Ok(Filled::Next);
                }
            }
        }
    }
}
