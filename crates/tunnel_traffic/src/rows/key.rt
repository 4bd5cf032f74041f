//! By what traffic of tunnels is counted.
ghost use Rattle.std.specs.Prelude.{◌≡◌, ◌<◌, ◌+◌, ◌*◌, ◌^◌};
ghost use Rattle.tunnel_traffic.specs.Key.{kind_number, rank};

use byteorder::{BigEndian, ByteOrder};
use ranked_rows::Ranked;
use wire::ip_udp::{Addr, Tunnel};
use wire::vxlan::Vni;

/// So far the numbers of two kinds are apart in ranks: 2^32.
const NETWORKS: u64 = 4_294_967_296;

/// What numbers are multiplied with so that their bits come into the highest ones: 2^128 over the golden ratio.
const MIXER: u128 = 0x9E37_79B9_7F4A_7C15_F39C_C060_5CED_C835;

/// A remote endpoint by the kind of its tunnel and its address, and one of its networks, where those are told apart.
#[derive(Clone, Copy, Debug, PartialEq, Eq)]
pub struct TunnelKey {
    pub kind: Tunnel,
    /// The network; 0 where all networks count together.
    pub vni: Vni,
    pub address: Addr,
}

impl Ranked for TunnelKey {
    ghost use Rattle.tunnel_traffic.specs.Key.{rank};

    ghost rank = { rank };

    fn is_below(&self, other: &TunnelKey) -> bool {
        let (high, low) = self.rank_words();
        let (other_high, other_low) = other.rank_words();
        high < other_high || (high == other_high && low < other_low)
    }

    fn is_same(&self, other: &TunnelKey) -> bool {
        self == other
    }

    fn mix(&self) -> u16 {
        let (high, low) = self.rank_words();
        let [first, second, ..] = (low ^ u128::from(high).rotate_left(64))
            .wrapping_mul(MIXER)
            .to_be_bytes();
        u16::from_be_bytes([first, second])
    }
}

impl TunnelKey {
    /// Its rank, in two halves of which the lower one has 128 bits: VXLAN stands first, then the order is by networks, by
    /// families, IPv4 first, and by addresses.
    #[tactic(auto, unfolding(crate::specs::Key::rank))]
    fn rank_words(&self) -> (u64, u128)
        ensures { rank self.now ≡ result.0 * 2 ^ 128 + result.1 }
    {
        let place = kind_number(self.kind) * NETWORKS + u64::from(self.vni.get());
        match &self.address {
            Addr::V4(octets) => (place * 2, u128::from(BigEndian::read_u32(octets))),
            Addr::V6(octets) => (place * 2 + 1, BigEndian::read_u128(octets)),
        }
    }
}

/// The number of a kind in ranks.
fn kind_number(kind: Tunnel) -> u64
    ensures value { result ≡ kind_number kind }
    ensures low { result < 2 }
{
    match kind {
        Tunnel::Vxlan => 0,
        Tunnel::Geneve => 1,
    }
}
