//! MAC addresses.
ghost use Rattle.std.specs.Prelude.{◌≡◌};
ghost use Rattle.wire.specs.Address.{is_group, is_reserved};

use std::marker::Model;

/// A MAC address, seen by contracts as its six octets.
#[derive(Clone, Copy, Debug, Default, PartialEq, Eq)]
pub struct Mac(pub [u8; 6]);

impl Model for Mac {
    ghost use Rattle.std.specs.Prelude.{ℕ, List};

    ghost Value = { List ℕ };

    ghost view = { λ m. m.0 };

    ghost inverse = { λ octets. record { 0 = octets } };
}

impl Mac {
    /// Whether it is a group address: the low bit of its first octet is set (IEEE 802, 8.2.2).
    pub fn is_group(self) -> bool
        ensures { result ≡ is_group self }
    {
        self.0[0] % 2 == 1
    }

    /// Whether it is one of 01-80-C2-00-00-00 to 01-80-C2-00-00-0F, which no bridge forwards (IEEE 802.1Q, 8.6.3).
    pub fn is_reserved(self) -> bool
        ensures { result ≡ is_reserved self }
    {
        let [first, second, third, fourth, fifth, last] = self.0;
        first == 0x01 && second == 0x80 && third == 0xC2 && fourth == 0 && fifth == 0 && last < 16
    }
}
