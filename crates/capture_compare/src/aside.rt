//! How many records are left aside.
ghost use Rattle.std.specs.Prelude.{◌≡◌};

/// How many records of two captures were left aside, as the manner of comparing says: they aren't compared.
#[derive(Clone, Copy, Debug, PartialEq, Eq)]
pub struct Aside {
    /// Of those that were sent.
    pub sent: u64,
    /// Of those that were received.
    pub received: u64,
}

impl Aside {
    /// None.
    pub fn none() -> Aside
        ensures { result ≡ record { sent = 0; received = 0 } }
    {
        Aside {
            sent: 0,
            received: 0,
        }
    }
}
