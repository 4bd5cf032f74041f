//! Writing a Geneve header.
ghost use Rattle.std.specs.Prelude.{◌≡◌, ◌++◌, ℕ, List, []};
ghost use Rattle.wire.specs.Geneve.{IsGeneve, geneve_header};

use crate::geneve::view::ETHERNET;
use crate::vxlan::Vni;

/// The header of a network's packets (RFC 8926, 3.4): version 0, no options, the protocol type of Ethernet frames, the
/// identifier, and 0 in both flags and all reserved bits.
pub fn geneve_head(vni: Vni) -> [u8; 8]
    ensures value { result ≡ geneve_header vni }
    ensures read_back { (inner : List ℕ) → IsGeneve (result ++ inner) vni [] inner }
{
    let [high, middle, low] = vni.octets();
    let [type_high, type_low] = ETHERNET.to_be_bytes();
    [0, 0, type_high, type_low, high, middle, low, 0]
}
