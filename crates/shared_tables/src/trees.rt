//! The trees that find an address: several for each bucket, with the slots of entries as leaves. A fork sends an address on
//! by one bit of its key, so a way down is never longer than a key has bits. Bits come along a way in any order, each once:
//! so an entry comes to a leaf, and goes, by a few writes.
//!
//! So a look-up takes at most as many steps as a key has bits (60), whoever chose the addresses, and each step is counted as
//! a comparison. That no bit comes twice is no rule of its own: the leaves on one side of a fork are alike in its bit, so no
//! fork there can part them by it again. A new leaf takes the place of the one that the look-up came to, below a new fork,
//! and a leaf that goes takes the fork above it along: both take a few writes and no walk.
ghost use Rattle.std.specs.Prelude.{◌≡◌, ◌+◌, ◌-◌, ◌/◌, ◌%◌, ◌<◌, ◌≤◌, ◌↔◌, IsTrue, IfOk, length, slice_set};
ghost use Rattle.shared_tables.specs.TreeColumns.{target_in, IsFork, fork_word, child_of, target_at, number_at, place_by, planted};
ghost use Rattle.shared_tables.specs.TreeColumns.{grafted, cleared, pruned, standing, Uproots, MayGo, HasSizes, bare_trees, Names};

use crate::columns::{Columns, FIRST_SIDE, NOTHING};
use crate::links::SlotId;
use std::alloc::{AllocError, Global};
use std::marker::Model;
use work_count::Count;

/// What stands at a place of the trees.
#[derive(Clone, Copy)]
pub enum Target {
    /// Nothing.
    Nothing,
    /// The slot of an entry.
    Leaf(u32),
    /// A fork: its number, and the bit of a key that tells the way on.
    Fork(u32, u32),
}

/// The first word of a fork; those below it are slots.
const FORKS: u32 = 1_048_576;

/// How many bits a key has.
const BITS: u32 = 64;

/// The trees over the slots of a pool. There are as many forks as slots. A place is a number: first come the roots
/// of all trees, then two places for each fork.
#[derive(Drop)]
pub struct Trees {
    columns: Columns,
}

impl Model for Trees {
    ghost use Rattle.shared_tables.specs.TreeColumns.{Trees};

    ghost Value = { Trees };

    ghost view = { λ f. f.columns };
}

/// Whether a word says that a fork stands there.
#[inline(always)]
pub fn is_fork(word: u32) -> bool
    ensures { IsTrue result ↔ IsFork word }
{
    word >= FORKS && word != NOTHING
}

/// The number of the fork that a word says.
#[inline(always)]
pub fn fork_in(word: u32) -> u32
    requires { IsFork word }
    ensures { result ≡ (word - 1048576) / 64 }
{
    (word - FORKS) / BITS
}

/// The bit that tells the way on at the fork that a word says.
#[inline(always)]
pub fn bit_in(word: u32) -> u32
    requires { IsFork word }
    ensures { result ≡ (word - 1048576) % 64 }
{
    (word - FORKS) % BITS
}

/// What a word says.
#[inline(always)]
#[tactic(auto, unfolding(crate::specs::TreeColumns::target_in))]
pub fn read(word: u32) -> Target
    ensures { result ≡ target_in word }
{
    if word < FORKS {
        Target::Leaf(word)
    } else if word == NOTHING {
        Target::Nothing
    } else {
        Target::Fork(fork_in(word), bit_in(word))
    }
}

/// The word of a fork.
fn fork_word(fork: u32, bit: u32) -> u32
    requires fork { fork < 1048576 }
    requires bit { bit < 64 }
    ensures { result ≡ fork_word fork bit }
{
    FORKS + fork * BITS + bit
}

/// The place on one side of a fork: 0 or 1.
#[inline(always)]
fn child(fork: u32, side: u32) -> u32
    requires fork { fork < 1048576 }
    requires side { side < 2 }
    ensures { result ≡ child_of fork side }
{
    FIRST_SIDE + 2 * fork + side
}

impl Trees {
    /// Trees without leaves over so many slots, at most 1,048,576. `AllocError`: a growth was refused.
    pub fn new(alloc: Global, size: u32) -> Result<Trees, AllocError>
        requires { size ≤ 1048576 }
        ensures { IfOk result (λ w. w ≡ bare_trees size) }
    {
        Ok(Trees {
            columns: Columns::new(alloc, size)?,
        })
    }

    /// The word that stands at the root of a tree.
    #[inline(always)]
    pub fn root(&self, tree: usize) -> u32
        requires { tree < 262144 }
        ensures { target_in result ≡ target_at self.now.words tree }
    {
        self.columns.root(tree)
    }

    /// The word that stands on one side of a fork: 0 or 1. It is the only way down a tree, and counts the step.
    #[inline(always)]
    pub fn next(&self, fork: u32, side: u32, compared: &mut Count) -> u32
        requires sizes { HasSizes self.now }
        requires fork { fork < length self.now.forks }
        requires side { side < 2 }
        ensures target { target_in result ≡ target_at self.now.words (child_of fork side) }
        ensures counted { compared.new.total ≡ compared.old.total + 1 }
    {
        compared.tick();
        self.columns.word(child(fork, side) as usize)
    }

    /// Makes a slot the only leaf of a tree, which keeps the slot's fork.
    pub fn plant(&mut self, tree: usize, slot: SlotId)
        requires sizes { HasSizes self.old }
        requires tree { tree < 262144 }
        ensures { self.new ≡ planted self.old tree slot }
    {
        self.columns.set_root(tree, slot.number);
    }

    /// Puts a fork in the place of a leaf of a tree, with the leaf and a slot behind it: the slot on this side, 0 or
    /// 1.
    pub fn graft(&mut self, tree: usize, leaf: SlotId, slot: SlotId, bit: u32, side: u32)
        requires sizes { HasSizes self.old }
        requires tree { tree < 262144 }
        requires leaf { leaf < length self.old.leaves }
        requires slot { slot < length self.old.leaves }
        requires bit { bit < 64 }
        requires side { side < 2 }
        requires place { place_by tree (number_at self.old.leaves leaf) < length self.old.words }
        requires fork { number_at self.old.leaves slot < length self.old.forks }
        ensures { self.new ≡ grafted self.old tree leaf slot bit side }
    {
        let number = self.columns.leaf(leaf.number as usize);
        let fork = self.columns.leaf(slot.number as usize);
        let own = child(fork, side);
        let other = child(fork, 1 - side);
        self.put(tree, number, fork_word(fork, bit));
        self.columns.set_fork(fork as usize, number);
        self.columns.set_word(own as usize, slot.number);
        self.columns.set_leaf(slot.number as usize, own);
        self.columns.set_word(other as usize, leaf.number);
        self.columns.set_leaf(leaf.number as usize, other);
    }

    /// Takes a slot out of its tree; the slot keeps a fork then.
    pub fn uproot(&mut self, tree: usize, slot: SlotId)
        requires sizes { HasSizes self.old }
        requires may_go { MayGo self.old tree slot }
        ensures { Uproots self.old self.new tree slot }
    {
        let number = self.columns.leaf(slot.number as usize);
        if number < FIRST_SIDE {
            self.clear(tree);
        } else {
            self.prune(
                tree,
                (number - FIRST_SIDE) / 2,
                (number - FIRST_SIDE) % 2,
                slot,
            );
        }
    }

    /// Takes the only leaf of a tree away, which keeps the tree's fork.
    fn clear(&mut self, tree: usize)
        requires sizes { HasSizes self.old }
        requires tree { tree < 262144 }
        ensures { self.new ≡ cleared self.old tree }
    {
        self.columns.set_root(tree, NOTHING);
    }

    /// Takes a fork of a tree away with the leaf on one side of it: what stands on the other side takes the fork's
    /// place.
    fn prune(&mut self, tree: usize, fork: u32, side: u32, slot: SlotId)
        requires sizes { HasSizes self.old }
        requires tree { tree < 262144 }
        requires fork { fork < length self.old.forks }
        requires side { side < 2 }
        requires slot { slot < length self.old.leaves }
        requires above { place_by tree (number_at self.old.forks fork) < length self.old.words }
        requires sibling { Names self.old (target_at self.old.words (child_of fork (1 - side))) }
        ensures { self.new ≡ pruned self.old tree fork side slot }
    {
        let sibling = self.columns.word(child(fork, 1 - side) as usize);
        let above = self.columns.fork(fork as usize);
        self.stand(read(sibling), above);
        self.put(tree, above, sibling);
        self.columns.set_word(child(fork, 0) as usize, NOTHING);
        self.columns.set_word(child(fork, 1) as usize, NOTHING);
        self.columns.set_leaf(slot.number as usize, fork);
    }

    /// Says what stands where what has a number in a tree stood.
    #[inline(always)]
    #[tactic(auto, unfolding(crate::specs::TreeColumns::place_by))]
    fn put(&mut self, tree: usize, number: u32, word: u32)
        requires tree { tree < 262144 }
        requires place { place_by tree number < length self.old.words }
        ensures { self.new ≡ record self.old { words = slice_set self.old.words (place_by tree number) word } }
    {
        if number < FIRST_SIDE {
            self.columns.set_root(tree, word);
        } else {
            self.columns.set_word(number as usize, word);
        }
    }

    /// Gives a target another number.
    fn stand(&mut self, target: Target, number: u32)
        requires { Names self.old target }
        ensures { self.new ≡ standing target number self.old }
    {
        match target {
            Target::Nothing => {}
            Target::Leaf(slot) => self.columns.set_leaf(slot as usize, number),
            Target::Fork(fork, _) => self.columns.set_fork(fork as usize, number),
        }
    }
}
