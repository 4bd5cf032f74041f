//! How often a key came.
ghost use Rattle.std.specs.Prelude.{◌≡◌, ◌≤◌, ◌+◌, ◌-◌, ◌^◌, ℕ, min};

use crate::counts::Counts;

/// What is counted of a key tells how often the key came.
pub trait Frequency: Counts {
    /// So often; it ends at 2^64 - 1.
    ghost times: { Self → ℕ };

    /// So often.
    fn times(&self) -> u64
        ensures { result ≡ times self.now };

    ghost summed: { (a b : Self) → times (Self.joined a b) ≤ min (2 ^ 64 - 1) (times a + times b) };

    ghost never: { times Self.none ≡ 0 };
}
