//! Where an address stands.
ghost use Rattle.std.specs.Prelude.{◌≡◌, ℕ, ◌+◌, ◌<◌, ◌≤◌};
ghost use Rattle.std.specs.Int.{bit_at};
ghost use Rattle.shared_tables.specs.Shared.{bucket_count};
ghost use Rattle.shared_tables.specs.TreesOfSlots.{AreTreesOf};
ghost use Rattle.shared_tables.specs.WholePool.{Finds};
ghost use Rattle.shared_tables.specs.Bucket.{bucket_of, tree_of, key_of, key_bits, IsKey};

use crate::bucket;
use crate::links::SlotId;
use crate::slots::Slots;
use crate::trees::{Target, Trees, bit_in, fork_in, is_fork, read};
use wire::ether::{Mac, Vid};
use work_count::Count;

/// A leaf beside which an address belongs, and a bit in which its key and that leaf's differ.
#[derive(Clone, Copy)]
pub struct Beside {
    pub leaf: SlotId,
    pub bit: u32,
}

/// Where an address is, or where it belongs.
#[derive(Clone, Copy)]
pub enum Sought {
    /// The slot that holds it.
    At(SlotId),
    /// No slot holds it. It belongs beside a leaf; where there is none its tree has no leaves.
    Missing(Option<Beside>),
}

/// A bit of a key: 0 or 1.
#[inline(always)]
pub fn side(key: u64, bit: u32) -> u32
    requires { bit < 64 }
    ensures value { result ≡ bit_at key bit }
    ensures two { result < 2 }
{
    ((key >> bit) & 1) as u32
}

/// Where an address stands in its tree. Each step down the tree, and the comparison with a leaf, are counted.
pub fn find_in(
    slots: &Slots,
    trees: &Trees,
    compared: &mut Count,
    tree: usize,
    vid: Vid,
    mac: Mac,
) -> Sought
    requires trees { AreTreesOf slots.now.entries trees.now }
    requires tree { tree ≡ tree_of vid mac }
    requires in_range { tree < 262144 }
    ensures found { Finds slots.now.entries trees.now vid mac result }
    ensures counted { compared.old.total ≤ compared.new.total }
    ensures compared { compared.new.total ≤ compared.old.total + bucket_count (bucket_of vid mac) slots.now.entries }
    ensures bits { compared.new.total ≤ compared.old.total + (key_bits + 1) }
    ensures fits { IsKey (key_of vid mac) }
{
    let key = bucket::key(vid, mac);
    let mut word = trees.root(tree);
    while is_fork(word) {
        word = trees.next(fork_in(word), side(key, bit_in(word)), compared);
    }
    match read(word) {
        Target::Leaf(number) => {
            let slot = SlotId { number };
            match slots.differs(slot, key, compared) {
                None => Sought::At(slot),
                Some(bit) => Sought::Missing(Some(Beside { leaf: slot, bit })),
            }
        }
        _ => Sought::Missing(None),
    }
}
