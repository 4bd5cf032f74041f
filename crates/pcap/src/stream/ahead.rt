//! An input that is read ahead into a room of its own.
//!
//! Up to 65,536 octets are read at once into the room of the longest record, and each record is lent where it lies there; only
//! what is left in front of one that isn't whole is moved. It never waits for octets that the next record doesn't need: for a
//! record it makes no more reads than that lacks octets of those read ahead. So an event on a pipe goes out before the next
//! record comes. Since one read may bring many records, what is counted over a whole capture, as a survey does, is bounded by
//! the octets that may come, 262,144 for each read that is left.
ghost use Rattle.std.specs.Prelude.{◌≡◌, ◌<◌, ◌≤◌, ◌+◌, ◌-◌, [], drop, length, max, slice_range, take, vec_capacity, IfOk, OnErr, OnOk};
ghost use Rattle.std.specs.Io.KnownBytes.{Consumes, IsAtEnd};
ghost use Rattle.pcap.specs.Record.{longest};
ghost use Rattle.pcap.specs.Ahead.{left_of, most_in};
ghost use Rattle.pcap.specs.Supply.{GivesUp, IsThrifty, Spends, StopsShort, TakesOneEach, untouched};

use crate::stream::device::DeviceFault;
use crate::stream::input::Input;
use crate::stream::supply::Supply;
use crate::text::LONGEST;
use std::alloc::{AllocError, Global};
use std::marker::Model;

/// How many octets are read at once where there are so many.
const BLOCK: usize = 65_536;

/// An input, and room for the octets that were taken of it last and for those that were read ahead behind them.
///
/// Contracts see the input and both texts.
#[derive(Drop)]
pub struct ReadAhead<R: Input> {
    input: Supply<R>,
    /// As long as the longest read wanted it yet, within what is reserved for it.
    room: Vec<u8>,
    /// Where the octets that were taken last begin.
    start: usize,
    /// Where they end, and those ahead begin.
    from: usize,
    /// Where those ahead end.
    to: usize,
}

impl<R: Input> Model for ReadAhead<R> {
    ghost use Rattle.std.specs.Prelude.{slice_range, vec_capacity};
    ghost use Rattle.pcap.specs.Ahead.{Ahead, LiesIn};

    ghost Value = { Ahead };

    ghost view = { λ a. record {
      input = a.input;
      ahead = slice_range a.room.items a.from a.to;
      taken = slice_range a.room.items a.start a.from;
    } };

    ghost invariant = { λ a. LiesIn a.room.items (vec_capacity a.room) a.start a.from a.to };
}

impl<R: Input> ReadAhead<R> {
    /// Reserves a room of 262,144 octets, and reads nothing.
    pub fn new(alloc: Global, input: R, reads: u64) -> Result<ReadAhead<R>, AllocError>
    where
        R: Drop,
        ensures { IfOk result (λ made. made ≡ record {
          input = untouched (R.remaining input) (R.calls input) (R.failures input) reads;
          ahead = [];
          taken = [];
        }) }
    {
        let room = Vec::with_capacity(alloc, LONGEST)?;
        Ok(ReadAhead {
            input: Supply::new(input, reads),
            room,
            start: 0,
            from: 0,
            to: 0,
        })
    }

    /// The input.
    pub fn input(&self) -> &R
        ensures rest { R.remaining result.now ≡ self.now.input.rest }
        ensures calls { R.calls result.now ≡ self.now.input.calls }
        ensures failures { R.failures result.now ≡ self.now.input.failures }
    {
        self.input.input()
    }

    /// The octets that were taken last.
    pub fn taken(&self) -> &[u8]
        ensures { result.now ≡ self.now.taken }
    {
        &self.room[self.start..self.from]
    }

    /// The octets that are ahead.
    pub fn ahead(&self) -> &[u8]
        ensures { result.now ≡ self.now.ahead }
    {
        &self.room[self.from..self.to]
    }

    /// How many octets are ahead.
    fn held(&self) -> usize
        ensures { result ≡ length self.now.ahead }
    {
        self.to - self.from
    }

    /// Moves what is ahead to the front of the room, and reads behind it until `wanted` octets are there or the input
    /// ends. A fault lets go of what was ahead.
    #[cold]
    #[inline(never)]
    fn bring(&mut self, wanted: usize) -> Result<(), DeviceFault>
        requires { (length self.old.ahead ≤ wanted) × (wanted ≤ longest) }
        ensures taken { OnOk result (Consumes (left_of self.old).rest self.new.input.rest self.new.ahead) }
        ensures end { OnOk result (length self.new.ahead < wanted → IsAtEnd self.new.input.rest) }
        ensures spent { Spends self.old.input self.new.input }
        ensures part { OnOk result (self.old.input.reads + length self.old.ahead ≤ self.new.input.reads + length self.new.ahead + 1) }
        ensures whole { OnOk result (wanted ≤ length self.new.ahead
            → self.old.input.reads + length self.old.ahead ≤ self.new.input.reads + wanted) }
        ensures brings { OnOk result (most_in self.new ≤ most_in self.old) }
        ensures no_end { OnOk result (wanted ≤ length self.new.ahead → self.new.input.ends ≡ self.old.input.ends) }
        ensures none { OnErr result (self.new.ahead ≡ []) }
        ensures thrift { OnErr result (IsThrifty self.old.input self.new.input) }
        ensures quiet { OnOk result (self.new.input.failures ≡ self.old.input.failures) }
        ensures gives_up { OnErr result (GivesUp self.old.input self.new.input) }
        ensures short { OnErr result
            (StopsShort (λ taken. length taken < wanted) (length self.old.ahead) (left_of self.old) self.new.input) }
    {
        let held = self.held();
        let end = wanted.max(BLOCK);
        make_room(&mut self.room, self.from, self.to, end);
        self.start = 0;
        self.from = 0;
        self.to = 0;
        let room = self.room.as_mut_slice();
        self.to = self.input.fill(room, held, wanted, end)?;
        Ok(())
    }

    /// Takes some octets of those that are ahead.
    fn take(&mut self, n: usize)
        requires { n ≤ length self.old.ahead }
        ensures input { self.new.input ≡ self.old.input }
        ensures taken { self.new.taken ≡ take n self.old.ahead }
        ensures ahead { self.new.ahead ≡ drop n self.old.ahead }
    {
        self.start = self.from;
        self.from += n;
    }

    /// Takes the next octets, so many or as far as the input goes, and says how many.
    #[inline(always)]
    pub fn pass(&mut self, wanted: usize) -> Result<usize, DeviceFault>
        requires { wanted ≤ longest }
        ensures bound { IfOk result (λ n. (n ≤ wanted) × (n ≡ length self.new.taken)) }
        ensures taken { OnOk result (Consumes (left_of self.old).rest (left_of self.new).rest self.new.taken) }
        ensures end { IfOk result (λ n. n < wanted → IsAtEnd (left_of self.new).rest) }
        ensures spent { Spends (left_of self.old) (left_of self.new) }
        ensures part { IfOk result (λ n. self.old.input.reads ≤ self.new.input.reads + n + 1) }
        ensures whole { IfOk result (λ n. wanted ≤ n → self.old.input.reads ≤ self.new.input.reads + n) }
        ensures lacks { IfOk result (λ n. wanted ≤ n
            → self.old.input.reads + length self.old.ahead ≤ self.new.input.reads + max wanted (length self.old.ahead)) }
        ensures there { wanted ≤ length self.old.ahead
            → (self.new.input ≡ self.old.input) × (self.new.taken ≡ take wanted self.old.ahead)
            × (self.new.ahead ≡ drop wanted self.old.ahead) }
        ensures behind { wanted ≤ length self.old.ahead → length self.new.ahead + wanted ≡ length self.old.ahead }
        ensures brings { IfOk result (λ n. n + most_in self.new ≤ most_in self.old) }
        ensures most { most_in self.new ≤ most_in self.old }
        ensures no_end { IfOk result (λ n. wanted ≤ n → self.new.input.ends ≡ self.old.input.ends) }
        ensures thrift { OnErr result (IsThrifty (left_of self.old) (left_of self.new)) }
        ensures below { IsThrifty self.old.input self.new.input }
        ensures each { IfOk result (λ n. wanted ≤ n → TakesOneEach self.old.input self.new.input) }
        ensures quiet { OnOk result (self.new.input.failures ≡ self.old.input.failures) }
        ensures gives_up { OnErr result (GivesUp (left_of self.old) (left_of self.new)) }
        ensures short { OnErr result
            (StopsShort (λ taken. length taken < wanted) (length self.old.ahead) (left_of self.old) (left_of self.new)) }
        ensures lacked { OnErr result (length self.old.ahead < wanted) }
    {
        if self.held() < wanted {
            self.bring(wanted)?;
        }
        let n = wanted.min(self.held());
        self.take(n);
        Ok(n)
    }
}

/// Moves the octets from one place of a room to another to its front, and makes the room at least so long as a read wants
/// it, within what is reserved for it.
fn make_room(room: &mut Vec<u8>, from: usize, to: usize, end: usize)
    requires order { (from ≤ to) × (to ≤ length room.old.items) }
    requires reserved { end ≤ vec_capacity room.old }
    ensures size { length room.new.items ≡ max end (length room.old.items) }
    ensures front { take (to - from) room.new.items ≡ slice_range room.old.items from to }
    ensures capacity { vec_capacity room.old ≤ vec_capacity room.new }
{
    move_front(room.as_mut_slice(), from, to);
    if room.len() < end {
        let Ok(()) = room.resize(end, 0) else {
            unreachable!()
        };
    }
}

/// Moves the octets from one place of a room to another to its front.
fn move_front(room: &mut [u8], from: usize, to: usize)
    requires { (from ≤ to) × (to ≤ length room.old) }
    ensures size { length room.new ≡ length room.old }
    ensures front { take (to - from) room.new ≡ slice_range room.old from to }
{
    let held = to - from;
    if from < held {
        // they reach over the places that they go to
        room.copy_within(from..to, 0);
        return;
    }
    let (front, back) = room.split_at_mut(from);
    front[..held].copy_from_slice(&back[..held]);
}
