//! What was read of an input and isn't used yet.
//!
//! So much is read at once as there is and as goes into the room, and only where the block in front isn't whole there: so it
//! never waits for octets behind a block that it has. What is left of a block moves to the front of the room first. Where
//! memory to read ahead is refused, there is room for a block alone.
//!
//! Blocks that are read stand whole in the room. A block of another type is read like them where it fits, and else passed over
//! without room: of it only the second length is looked at.
ghost use Rattle.std.specs.Prelude.{◌≡◌, ◌≤◌, ◌<◌, ◌+◌, ◌-◌, ℕ, [], drop, length, max, slice_range, take, vec_capacity, IfOk, OnErr, OnOk};
ghost use Rattle.std.specs.Io.{ReadsAtMost};
ghost use Rattle.std.specs.Io.KnownBytes.{Consumes, IsAtEnd, Keeps, ReadConsumes};
ghost use Rattle.pcap.specs.Counts.{CountsFaults, GoesOnBy};
ghost use Rattle.pcap.specs.Supply.{GivesUp, Spends, untouched};
ghost use Rattle.pcapng_input.specs.Adapter.{IsFetched};
ghost use Rattle.pcapng_input.specs.Block.{longest_block};
ghost use Rattle.pcapng_input.specs.Stops.{StopsFor};

use crate::block::EMPTY_BLOCK;
use crate::room::lengthen;
use crate::stop::Stop;
use pcap::stream::{DeviceFault, Input};
use std::alloc::{AllocError, Global};
use std::marker::Model;

/// The octets in front of what an input has left, in a room that grows with what is wanted, and how many reads may still be
/// made of the input. Contracts see these octets and the input; how many reads found the end isn't counted.
#[derive(Drop)]
pub struct Gathered<R: Input> {
    input: R,
    reads: u64,
    room: Vec<u8>,
    /// Where what is held begins.
    from: usize,
    /// Where it ends.
    to: usize,
}

impl<R: Input> Model for Gathered<R> {
    ghost use Rattle.std.specs.Prelude.{◌≡◌, ◌≤◌, length, slice_range};
    ghost use Rattle.pcapng_input.specs.Adapter.{Gathered};
    ghost use Rattle.pcapng_input.specs.Block.{longest_block};

    ghost Value = { Gathered };

    ghost view = { λ g. record {
      held = slice_range g.room.items g.from g.to;
      supply = record {
        rest = R.remaining g.input;
        calls = R.calls g.input;
        failures = R.failures g.input;
        ends = 0;
        reads = g.reads;
      };
    } };

    ghost invariant = { λ g. (g.from ≤ g.to) × (g.to ≤ length g.room.items) × (length g.room.items ≤ longest_block) };
}

/// Moves the octets from one place of a room to another to its front, and says where they end.
fn move_front(room: &mut [u8], from: usize, to: usize) -> usize
    requires { (from ≤ to) × (to ≤ length room.old) }
    ensures end { result ≡ to - from }
    ensures size { length room.new ≡ length room.old }
    ensures front { take result room.new ≡ slice_range room.old from to }
{
    if from == 0 {
        return to;
    }
    let held = to - from;
    if from < held {
        // they reach over the places that they go to
        room.copy_within(from..to, 0);
        return held;
    }
    let (front, back) = room.split_at_mut(from);
    front[..held].copy_from_slice(&back[..held]);
    held
}

/// Makes a room as long as `most` where it is shorter, or, where memory for that is refused, as long as `wanted`. It says up
/// to where it may be filled. `AllocError`: memory for `wanted` was refused too.
fn make_room(room: &mut Vec<u8>, wanted: usize, most: usize) -> Result<usize, AllocError>
    requires { wanted ≤ most }
    ensures end { IfOk result (λ end. (wanted ≤ end) × (end ≤ most) × (end ≤ length room.new.items)) }
    ensures most { length room.new.items ≤ max (length room.old.items) most }
    ensures least { length room.old.items ≤ length room.new.items }
    ensures front { (n : ℕ) → n ≤ length room.old.items → take n room.new.items ≡ take n room.old.items }
    ensures refused { OnErr result (vec_capacity room.old < wanted) }
{
    if lengthen(room, most).is_ok() {
        return Ok(most);
    }
    lengthen(room, wanted)?;
    Ok(wanted)
}

/// One read into a part of a room.
fn read_between<R: Input>(
    input: &mut R,
    room: &mut [u8],
    from: usize,
    to: usize,
) -> Result<usize, DeviceFault>
    requires { (from < to) × (to ≤ length room.old) }
    ensures front { take from room.new ≡ take from room.old }
    ensures fits { IfOk result (λ n. from + n ≤ to) }
    ensures taken { IfOk result (λ n. Consumes (R.remaining input.old) (R.remaining input.new) (take n (drop from room.new))) }
    ensures end { IfOk result (λ n. n ≡ 0 → IsAtEnd (R.remaining input.new)) }
    ensures none { OnErr result (Keeps (R.remaining input.old) (R.remaining input.new)) }
    ensures calls { GoesOnBy 1 (R.calls input.old) (R.calls input.new) }
    ensures failures { CountsFaults (R.failures input.old) (R.failures input.new) result }
{
    input.read(&mut room[from..to])
}

impl<R: Input> Gathered<R> {
    /// Reserves room for a block with an empty body, and reads nothing.
    pub fn new(alloc: Global, input: R, reads: u64) -> Result<Gathered<R>, AllocError>
    where
        R: Drop,
        ensures { IfOk result (λ gathered. gathered ≡ record {
          held = [];
          supply = untouched (R.remaining input) (R.calls input) (R.failures input) reads;
        }) }
    {
        let room = vec![in alloc; 0u8; EMPTY_BLOCK]?;
        Ok(Gathered {
            input,
            reads,
            room,
            from: 0,
            to: 0,
        })
    }

    pub fn held(&self) -> &[u8]
        ensures octets { result.now ≡ self.now.held }
        ensures room { length self.now.held ≤ longest_block }
    {
        &self.room[self.from..self.to]
    }

    /// One read, so that at most `most` octets are held. It answers whether there were any. Where memory for so many is
    /// refused, at most `wanted` are held, and where it is refused for these too, no read is made.
    #[cold]
    #[inline(never)]
    pub fn fetch(&mut self, wanted: usize, most: usize) -> Result<bool, Stop>
        requires { (length self.old.held < wanted) × (wanted ≤ most) × (most ≤ longest_block) }
        ensures fetched { IfOk result (IsFetched most self.old self.new) }
        ensures held { OnErr result (self.new.held ≡ self.old.held) }
        ensures kept { OnErr result (Keeps self.old.supply.rest self.new.supply.rest) }
        ensures spent { Spends self.old.supply self.new.supply }
        ensures fewer { OnOk result (self.new.supply.reads < self.old.supply.reads) }
        ensures stops { StopsFor ⊥ self.old.supply self.new.supply result }
    {
        if self.reads == 0 {
            return Err(Stop::Below);
        }
        self.to = move_front(self.room.as_mut_slice(), self.from, self.to);
        self.from = 0;
        let Ok(end) = make_room(&mut self.room, wanted, most) else {
            return Err(Stop::NoMemory);
        };
        self.reads -= 1;
        let Ok(n) = read_between(&mut self.input, self.room.as_mut_slice(), self.to, end) else {
            return Err(Stop::Below);
        };
        self.to += n;
        Ok(n > 0)
    }

    /// Forgets the first octets of what is held.
    pub fn forget(&mut self, count: usize)
        requires { count ≤ length self.old.held }
        ensures { self.new ≡ record { held = drop count self.old.held; supply = self.old.supply } }
    {
        self.from += count;
    }

    /// Forgets what is held.
    pub fn clear(&mut self)
        ensures { self.new ≡ record { held = []; supply = self.old.supply } }
    {
        self.from = 0;
        self.to = 0;
    }

    /// One read into octets of the caller's.
    pub fn pass(&mut self, octets: &mut [u8]) -> Result<usize, Stop>
        ensures bound { ReadsAtMost result octets.new }
        ensures taken { ReadConsumes self.old.supply.rest self.new.supply.rest result octets.new }
        ensures held { self.new.held ≡ self.old.held }
        ensures spent { Spends self.old.supply self.new.supply }
        ensures stops { StopsFor ⊥ self.old.supply self.new.supply result }
        ensures below { OnErr result (GivesUp self.old.supply self.new.supply) }
    {
        if self.reads == 0 {
            return Err(Stop::Below);
        }
        self.reads -= 1;
        match self.input.read(octets) {
            Ok(n) => Ok(n),
            Err(_) => Err(Stop::Below),
        }
    }
}
