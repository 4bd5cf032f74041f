//! The words of kinds, tags and addresses.
ghost use Rattle.std.specs.Prelude.{◌≡◌, ◌<◌, Some};
ghost use Rattle.capture_compare.specs.Words.{addr_word, eight_word, hex_octet, ip4_word, ip6_word, kind_word};
ghost use Rattle.capture_compare.specs.Words.{pair_word, tag_word, vni_word};

use crate::lonely::octets::array_of;
use std::fmt;
use wire::ip_udp::{Addr, Tunnel};
use wire::vxlan::Vni;

/// The word for a kind of tunnel.
#[derive(Clone, Copy)]
pub(crate) struct KindWord(pub(crate) Tunnel);

impl fmt::Display for KindWord {
    ghost output = { λ word. Some (kind_word word.0) };

    fn fmt<W: fmt::Write>(&self, f: &mut fmt::Formatter<W>) -> fmt::Result {
        match self.0 {
            Tunnel::Vxlan => write!(f, "vxlan"),
            Tunnel::Geneve => write!(f, "geneve"),
        }
    }
}

/// The number of a network.
#[derive(Clone, Copy)]
pub(crate) struct VniWord(pub(crate) Vni);

impl fmt::Display for VniWord {
    ghost output = { λ word. Some (vni_word word.0) };

    fn fmt<W: fmt::Write>(&self, f: &mut fmt::Formatter<W>) -> fmt::Result {
        let number = self.0.get();
        write!(f, "{number}")
    }
}

/// A VID, or `none`.
#[derive(Clone, Copy)]
pub(crate) struct TagWord(pub(crate) Option<u16>);

impl fmt::Display for TagWord {
    ghost output = { λ word. Some (tag_word word.0) };

    fn fmt<W: fmt::Write>(&self, f: &mut fmt::Formatter<W>) -> fmt::Result {
        match self.0 {
            Some(vid) => write!(f, "{vid}"),
            None => write!(f, "none"),
        }
    }
}

/// An address: four decimals, or eight groups of four hexadecimal digits.
#[derive(Clone, Copy)]
pub(crate) struct AddrWord(pub(crate) Addr);

impl fmt::Display for AddrWord {
    ghost output = { λ word. Some (addr_word word.0) };

    fn fmt<W: fmt::Write>(&self, f: &mut fmt::Formatter<W>) -> fmt::Result {
        match self.0 {
            Addr::V4(octets) => {
                let word = Ip4Word(octets);
                write!(f, "{word}")
            }
            Addr::V6(octets) => {
                let word = Ip6Word(octets);
                write!(f, "{word}")
            }
        }
    }
}

/// Four decimals.
#[derive(Clone, Copy)]
struct Ip4Word([u8; 4]);

impl fmt::Display for Ip4Word {
    ghost output = { λ word. Some (ip4_word word.0) };

    #[tactic(auto, unfolding(crate::specs::Words::ip4_word))]
    fn fmt<W: fmt::Write>(&self, f: &mut fmt::Formatter<W>) -> fmt::Result {
        let first = self.0[0];
        let second = self.0[1];
        let third = self.0[2];
        let fourth = self.0[3];
        write!(f, "{first}.{second}.{third}.{fourth}")
    }
}

/// Eight groups.
#[derive(Clone, Copy)]
struct Ip6Word([u8; 16]);

impl fmt::Display for Ip6Word {
    ghost output = { λ word. Some (ip6_word word.0) };

    fn fmt<W: fmt::Write>(&self, f: &mut fmt::Formatter<W>) -> fmt::Result {
        let front = EightWord(array_of(&self.0[..8]));
        let back = EightWord(array_of(&self.0[8..]));
        write!(f, "{front}:{back}")
    }
}

/// Four groups.
#[derive(Clone, Copy)]
struct EightWord([u8; 8]);

impl fmt::Display for EightWord {
    ghost output = { λ word. Some (eight_word word.0) };

    #[tactic(auto, unfolding(crate::specs::Words::eight_word))]
    fn fmt<W: fmt::Write>(&self, f: &mut fmt::Formatter<W>) -> fmt::Result {
        let first = PairWord(self.0[0], self.0[1]);
        let second = PairWord(self.0[2], self.0[3]);
        let third = PairWord(self.0[4], self.0[5]);
        let fourth = PairWord(self.0[6], self.0[7]);
        write!(f, "{first}:{second}:{third}:{fourth}")
    }
}

/// One group.
#[derive(Clone, Copy)]
struct PairWord(u8, u8);

impl fmt::Display for PairWord {
    ghost output = { λ word. Some (pair_word word.0 word.1) };

    fn fmt<W: fmt::Write>(&self, f: &mut fmt::Formatter<W>) -> fmt::Result {
        let high = OctetWord(self.0);
        let low = OctetWord(self.1);
        write!(f, "{high}{low}")
    }
}

/// An octet in two hexadecimal digits.
#[derive(Clone, Copy)]
struct OctetWord(u8);

impl OctetWord {
    /// The octet.
    fn octet(self) -> u8
        ensures value { result ≡ self.0 }
        ensures small { result < 256 }
    {
        self.0
    }
}

impl fmt::Display for OctetWord {
    ghost output = { λ word. Some (hex_octet word.0) };

    fn fmt<W: fmt::Write>(&self, f: &mut fmt::Formatter<W>) -> fmt::Result {
        let octet = self.octet();
        write!(f, "{octet:02x}")
    }
}
