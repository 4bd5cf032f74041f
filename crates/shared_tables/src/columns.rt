//! The numbers of the trees, in one list.
//!
//! A tree has a fork fewer than leaves, and each slot brings one: so a tree that has leaves keeps a fork. Its number stands
//! for what is at the tree's root where the place of what is behind a fork would, since the address of an entry that goes
//! tells its tree again: the fork needs no column of its own, and the first leaf of a tree comes and goes by one write. So
//! that no fork's number is such a place, those on the sides of forks are counted from 1,048,576 on, behind all forks that
//! there may be; no words are kept of the places between them and the roots, at which nothing ever stands.
ghost use Rattle.std.specs.Prelude.{◌≡◌, ◌+◌, ◌*◌, ◌<◌, ◌≤◌, ◌++◌, ℕ, IfOk, length, replicate, slice_index_or, slice_set, vec_capacity};
ghost use Rattle.std.specs.List.{range_with_len};
ghost use Rattle.shared_tables.specs.TreeColumns.{number_at, bare_trees};

use crate::bucket::TREES;
use std::alloc::{AllocError, Global};
use std::marker::Model;

/// The word of nothing.
pub const NOTHING: u32 = u32::MAX;

/// The first of the places on the sides of forks. Each number of a fork is smaller, and so are the places of the roots.
pub const FIRST_SIDE: u32 = 1_048_576;

/// How many places there are between the roots and the sides of forks. Nothing ever stands there, so no word is kept.
const GAP: usize = FIRST_SIDE as usize - TREES;

/// The three columns of the trees one behind another in one list, for which memory is asked once: what stands at each
/// place; a number of each slot; a number of each fork. What stands behind a fork has its place as its number; what stands
/// at the root of a tree a fork that no tree has, which the tree keeps; and a free slot one that it keeps.
#[derive(Drop)]
pub struct Columns {
    numbers: Vec<u32>,
    /// Where each but the first of them begins.
    leaves: usize,
    forks: usize,
}

impl Model for Columns {
    ghost use Rattle.shared_tables.specs.TreeColumns.{Trees};

    ghost Value = { Trees };

    ghost use Rattle.shared_tables.specs.ColumnsFromNumbers.{columns_of, AreInOrder};

    ghost view = { columns_of };

    ghost invariant = { AreInOrder };
}

/// Puts so many words that are alike behind others, in room that is there.
fn fill(numbers: &mut Vec<u32>, word: u32, count: usize)
    requires { length numbers.old.items + count ≤ vec_capacity numbers.old }
    ensures items { numbers.new.items ≡ numbers.old.items ++ replicate count word }
    ensures capacity { vec_capacity numbers.new ≡ vec_capacity numbers.old }
{
    for _word in 0..count {
        numbers.push_reserved(word);
    }
}

/// Puts the first numbers behind others, in room that is there.
fn count_up(numbers: &mut Vec<u32>, count: u32)
    requires { length numbers.old.items + count ≤ vec_capacity numbers.old }
    ensures items { numbers.new.items ≡ numbers.old.items ++ range_with_len 0 count }
    ensures capacity { vec_capacity numbers.new ≡ vec_capacity numbers.old }
{
    for number in 0..count {
        numbers.push_reserved(number);
    }
}

impl Columns {
    /// Those of trees without leaves over so many slots, at most 1,048,576, where each slot keeps the fork of its number.
    /// `AllocError`: the growth was refused.
    pub fn new(alloc: Global, size: u32) -> Result<Columns, AllocError>
        requires { size ≤ 1048576 }
        ensures { IfOk result (λ w. w ≡ bare_trees size) }
    {
        let slots = size as usize;
        let leaves = TREES + 2 * slots;
        let mut numbers = Vec::with_capacity(alloc, leaves + 2 * slots)?;
        fill(&mut numbers, NOTHING, leaves);
        count_up(&mut numbers, size);
        fill(&mut numbers, 0, slots);
        Ok(Columns {
            numbers,
            leaves,
            forks: leaves + slots,
        })
    }

    /// What stands at the root of a tree.
    #[inline(always)]
    pub fn root(&self, tree: usize) -> u32
        requires { tree < 262144 }
        ensures { result ≡ slice_index_or self.now.words tree 4294967295 }
    {
        self.numbers[tree]
    }

    /// What stands at a place on the side of a fork.
    #[inline(always)]
    pub fn word(&self, place: usize) -> u32
        requires side { 1048576 ≤ place }
        requires there { place < length self.now.words }
        ensures { result ≡ slice_index_or self.now.words place 4294967295 }
    {
        self.numbers[place - GAP]
    }

    /// The number of a slot.
    #[inline(always)]
    pub fn leaf(&self, slot: usize) -> u32
        requires { slot < length self.now.leaves }
        ensures { result ≡ number_at self.now.leaves slot }
    {
        self.numbers[self.leaves + slot]
    }

    /// The number of a fork.
    #[inline(always)]
    pub fn fork(&self, fork: usize) -> u32
        requires { fork < length self.now.forks }
        ensures { result ≡ number_at self.now.forks fork }
    {
        self.numbers[self.forks + fork]
    }

    /// Says what stands at the root of a tree.
    #[inline(always)]
    pub fn set_root(&mut self, tree: usize, word: u32)
        requires { tree < 262144 }
        ensures { self.new ≡ record self.old { words = slice_set self.old.words tree word } }
    {
        self.numbers[tree] = word;
    }

    /// Says what stands at a place on the side of a fork.
    #[inline(always)]
    pub fn set_word(&mut self, place: usize, word: u32)
        requires side { 1048576 ≤ place }
        requires there { place < length self.old.words }
        ensures { self.new ≡ record self.old { words = slice_set self.old.words place word } }
    {
        self.numbers[place - GAP] = word;
    }

    /// Gives a slot another number.
    #[inline(always)]
    pub fn set_leaf(&mut self, slot: usize, number: u32)
        requires { slot < length self.old.leaves }
        ensures { self.new ≡ record self.old { leaves = slice_set self.old.leaves slot number } }
    {
        self.numbers[self.leaves + slot] = number;
    }

    /// Gives a fork another number.
    #[inline(always)]
    pub fn set_fork(&mut self, fork: usize, number: u32)
        requires { fork < length self.old.forks }
        ensures { self.new ≡ record self.old { forks = slice_set self.old.forks fork number } }
    {
        self.numbers[self.forks + fork] = number;
    }
}
