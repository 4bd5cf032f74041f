//! Counts of work done, for contracts alone.
//!
//! Use first: a [`Count`] is a number that contracts see and no octet keeps, so it has no upper end and costs nothing when a
//! program runs. A type that holds one as a private field says by it how often some step was taken: the one method that takes
//! the step ticks it, and each other one's contract says that the count stays. There are no specs: the two clauses below say
//! all.
//!
//! Proved: [`Count::zero`] makes the number 0, and [`Count::tick`] adds one. Their two proofs are written by hand.
//!
//! Proved besides:
//! - A `Count` is a number that contracts see and no octet keeps: `zero` makes it 0, `tick` adds one. Their two proofs
//!   are written by hand.
//!
//! Why it is so: the toolchain's ledgers would give the tables, and all that holds them, a type parameter for each count.
//! Only a proof by hand can set a count's number, so no function but these two has one, which `tests/code/hand_proofs.sh` looks
//! at; any other raises a count by `tick` alone. But a body may put another count in its place, as a new one of zero. So a
//! contract that says how little a call adds to a count also says that the count is no less than before.
#![tactic(auto)]

ghost use Rattle.std.specs.Prelude.{◌≡◌, ℕ, ◌+◌};

use std::marker::{Model, PhantomData};

/// A count. It takes no octets, and `tick` alone changes its number.
pub struct Count {
    marker: PhantomData<u8>,
    pub ghost total: { ℕ },
}

impl Model for Count {
    ghost use base.Fml.{ftrue};

    ghost also_owns = { λ _. ftrue };
}

impl Count {
    /// A count of zero.
    pub fn zero() -> Count
        ensures { result.total ≡ 0 }
    {
        Count {
            marker: PhantomData,
        }
    }

    /// Counts one more.
    pub fn tick(&mut self)
        ensures { self.new.total ≡ self.old.total + 1 }
    {}
}

impl Drop for Count {
    fn drop(self) {
        let Count { marker: _ } = self;
    }
}
