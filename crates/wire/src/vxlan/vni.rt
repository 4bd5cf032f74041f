//! The numbers of virtual networks.
ghost use Rattle.std.specs.Prelude.{◌≡◌};
ghost use Rattle.std.specs.Option.{SomeIff};
ghost use Rattle.wire.specs.Octets.{number, octets};
ghost use Rattle.wire.specs.Vxlan.{IsVni};

use byteorder::{BigEndian, ByteOrder};
use std::marker::Model;

/// A network identifier of 24 bits (RFC 7348, 5; RFC 8926, 3.4), seen by contracts as the number.
#[derive(Clone, Copy, Debug, PartialEq, Eq)]
pub struct Vni {
    number: u32,
}

impl Model for Vni {
    ghost use Rattle.std.specs.Prelude.{ℕ};
    ghost use Rattle.wire.specs.Vxlan.{IsVni};

    ghost Value = { ℕ };

    ghost view = { λ v. v.number };

    ghost invariant = { λ v. IsVni v.number };

    ghost inverse = { λ n. record { number = n } };
}

impl Vni {
    /// The identifier of this number; None above 16,777,215.
    pub fn new(number: u32) -> Option<Vni>
        ensures { SomeIff result (IsVni number) number }
    {
        if number < 1 << 24 {
            Some(Vni { number })
        } else {
            None
        }
    }

    /// The identifier that three octets spell, the high one first.
    pub fn from_octets(octets: [u8; 3]) -> Vni
        ensures { result ≡ number octets }
    {
        Vni {
            number: BigEndian::read_u24(&octets),
        }
    }

    /// Its three octets, the high one first.
    pub fn octets(self) -> [u8; 3]
        ensures value { result ≡ octets 3 self }
        ensures in_range { IsVni self }
    {
        let mut octets = [0; 3];
        BigEndian::write_u24(&mut octets, self.number);
        octets
    }

    /// The number, 0 to 16,777,215.
    pub fn get(self) -> u32
        ensures value { result ≡ self }
        ensures in_range { IsVni result }
    {
        self.number
    }
}
