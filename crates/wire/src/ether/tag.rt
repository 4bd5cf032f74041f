//! VLAN identifiers and tag control information (IEEE 802.1Q, 9.6).
//!
//! [`Tci::new`] takes any 16 bits: what a VID may be is the business of [`Vid`].
ghost use Rattle.std.specs.Prelude.{◌≡◌, ◌<◌};
ghost use Rattle.std.specs.Option.{SomeIff};
ghost use Rattle.wire.specs.Tag.{IsVid, pcp_of, dei_of, vid_of};

use std::marker::Model;

/// A VLAN identifier of 1 to 4094, seen by contracts as the number.
#[derive(Clone, Copy, Debug, PartialEq, Eq)]
pub struct Vid {
    number: u16,
}

impl Model for Vid {
    ghost use Rattle.std.specs.Prelude.{ℕ};
    ghost use Rattle.wire.specs.Tag.{IsVid};

    ghost Value = { ℕ };

    ghost view = { λ v. v.number };

    ghost invariant = { λ v. IsVid v.number };

    ghost inverse = { λ n. record { number = n } };
}

impl Vid {
    /// The identifier of this number; None for 0 and for 4095 and more.
    pub fn new(number: u16) -> Option<Vid>
        ensures { SomeIff result (IsVid number) number }
    {
        if number >= 1 && number <= 4094 {
            Some(Vid { number })
        } else {
            None
        }
    }

    /// The number, 1 to 4094.
    pub fn get(self) -> u16
        ensures value { result ≡ self }
        ensures in_range { IsVid self }
    {
        self.number
    }
}

/// The tag control information of a VLAN tag, seen by contracts as its 16 bits.
#[derive(Clone, Copy, Debug, PartialEq, Eq)]
pub struct Tci {
    bits: u16,
}

impl Model for Tci {
    ghost use Rattle.std.specs.Prelude.{ℕ};

    ghost Value = { ℕ };

    ghost view = { λ t. t.bits };

    ghost inverse = { λ n. record { bits = n } };
}

impl Tci {
    /// The tag control information with these bits.
    pub fn new(bits: u16) -> Tci
        ensures { result ≡ bits }
    {
        Tci { bits }
    }

    /// The priority code point, 0 to 7.
    pub fn pcp(self) -> u8
        ensures value { result ≡ pcp_of self }
        ensures in_range { result < 8 }
    {
        (self.bits / 8192) as u8
    }

    /// The drop eligible indicator.
    pub fn dei(self) -> bool
        ensures { result ≡ dei_of self }
    {
        self.bits / 4096 % 2 == 1
    }

    /// The VLAN identifier, 0 to 4095: 0 gives a priority alone, and 4095 is reserved.
    pub fn vid(self) -> u16
        ensures value { result ≡ vid_of self }
        ensures in_range { result < 4096 }
    {
        self.bits % 4096
    }
}
