//! How a capture writes its numbers.
ghost use Rattle.std.specs.Prelude.{◌≡◌};

/// A second in nanoseconds.
pub const SECOND: u64 = 1_000_000_000;

/// The order of a number's octets: the high one first, or the low one.
#[derive(Clone, Copy, Debug, PartialEq, Eq)]
pub enum Order {
    Big,
    Little,
}

/// What a record's fraction of a second counts: microseconds or nanoseconds.
#[derive(Clone, Copy, Debug, PartialEq, Eq)]
pub enum Precision {
    Micro,
    Nano,
}

/// How a capture writes its numbers, as its magic number says.
#[derive(Clone, Copy, Debug, PartialEq, Eq)]
pub struct Style {
    pub order: Order,
    pub precision: Precision,
}

impl Precision {
    ghost use Rattle.pcap.specs.Style.{fractions_of, nanoseconds_of};

    /// How many fractions a second has.
    pub fn fractions(self) -> u32
        ensures { result ≡ fractions_of self }
    {
        match self {
            Precision::Micro => 1_000_000,
            Precision::Nano => 1_000_000_000,
        }
    }

    /// How many nanoseconds a fraction has.
    pub fn nanoseconds(self) -> u64
        ensures { result ≡ nanoseconds_of self }
    {
        match self {
            Precision::Micro => 1000,
            Precision::Nano => 1,
        }
    }
}
