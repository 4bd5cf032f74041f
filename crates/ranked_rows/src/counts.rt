//! What is counted.
ghost use Rattle.std.specs.Prelude.{◌≡◌};

/// What is counted of a key: two of them come to one, in whatever order they come.
pub trait Counts {
    /// Of nothing.
    ghost none: { Self };

    /// Of both.
    ghost joined: { Self → Self → Self };

    /// What is counted of nothing.
    fn none() -> Self
        ensures { result ≡ none };

    /// What both come to.
    fn with(self, other: Self) -> Self
        ensures { result ≡ joined self other };

    ghost grouped: { (a b c : Self) → joined a (joined b c) ≡ joined (joined a b) c };

    ghost turned: { (a b : Self) → joined a b ≡ joined b a };

    ghost whole: { (a b : Self) → joined (joined a b) none ≡ joined a b };

    ghost nothing: { joined none none ≡ none };
}
