//! Writing a VXLAN header.
ghost use Rattle.std.specs.Prelude.{◌≡◌, ◌++◌, ℕ, List};
ghost use Rattle.wire.specs.Vxlan.{IsVxlan, vxlan_header};

use crate::vxlan::Vni;
use crate::vxlan::view::VNI_IS_VALID;

/// The header of a network's packets (RFC 7348, 5): the flag I, the identifier, and 0 in all reserved bits.
pub fn vxlan_head(vni: Vni) -> [u8; 8]
    ensures value { result ≡ vxlan_header vni }
    ensures read_back { (inner : List ℕ) → IsVxlan (result ++ inner) vni inner }
{
    let [high, middle, low] = vni.octets();
    [VNI_IS_VALID, 0, 0, 0, high, middle, low, 0]
}
