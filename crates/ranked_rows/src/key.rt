//! By what is counted.
ghost use Rattle.std.specs.Prelude.{◌≡◌, ℕ, nat_lt, true};

/// What has a row of its own, by its rank. Keys of one rank count as one.
pub trait Ranked {
    /// Its rank: rows stand in this order.
    ghost rank: { Self → ℕ };

    /// Whether its rank is below that of another.
    fn is_below(&self, other: &Self) -> bool
        ensures { result ≡ nat_lt (rank self.now) (rank other.now) };

    /// Whether it is the other, so that both have one rank.
    fn is_same(&self, other: &Self) -> bool
        ensures { result ≡ true → rank self.now ≡ rank other.now };

    /// A number that few others have, by which a table remembers where it stands. Nothing that a table shows depends on it.
    fn mix(&self) -> u16;
}
