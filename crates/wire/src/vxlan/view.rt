//! Reading a VXLAN packet.
ghost use Rattle.std.specs.Prelude.{◌≡◌, ℕ, List, ◌++◌, IfOk, IsOkAnd, take, drop};
ghost use Rattle.wire.specs.First.{first, fault_of};
ghost use Rattle.wire.specs.Vxlan.{IsVxlan};
ghost use Rattle.wire.specs.VxlanReading.{vxlan_faults, reason_of};

use crate::ether::Reason;
use crate::vxlan::Vni;
use std::marker::Model;
use thiserror::Error;

/// The octets of a header.
const HEADER_LENGTH: usize = 8;
/// The flag I among the flags, the first octet: the identifier is valid (RFC 7348, 5).
pub(crate) const VNI_IS_VALID: u8 = 0x08;

/// Why a text is no VXLAN packet, in the order of the checks.
#[derive(Clone, Copy, Debug, PartialEq, Eq, Error)]
pub enum VxlanFault {
    /// Fewer than 8 octets.
    #[error("ShortTunnel")]
    ShortTunnel,
    /// The flag I is 0.
    #[error("NoVniFlag")]
    NoVniFlag,
}

impl From<VxlanFault> for Reason {
    ghost from_gives = { λ fault reason. reason ≡ reason_of fault };

    fn from(fault: VxlanFault) -> Reason {
        match fault {
            VxlanFault::ShortTunnel => Reason::ShortTunnel,
            VxlanFault::NoVniFlag => Reason::NoVniFlag,
        }
    }
}

/// A VXLAN packet, seen by contracts as its header, its identifier and its payload.
#[derive(Debug, Drop)]
pub struct VxlanView<'a> {
    head: &'a [u8],
    vni: Vni,
    payload: &'a [u8],
}

impl<'a> Model for VxlanView<'a> {
    ghost use Rattle.wire.specs.Vxlan.{VxlanParts};

    ghost Value = { VxlanParts };

    ghost view = { λ v. record { head = v.head.now; vni = v.vni; payload = v.payload.now } };
}

impl<'a> VxlanView<'a> {
    /// Reads a packet (RFC 7348, 5). `ShortTunnel`: fewer than 8 octets. `NoVniFlag`: the flag I is 0. All other flags
    /// and the reserved octets are ignored.
    pub fn read(octets: &'a [u8]) -> Result<VxlanView<'a>, VxlanFault>
        ensures fault { fault_of result ≡ first (vxlan_faults octets.now) }
        ensures packet { IfOk result (λ view. IsVxlan octets.now view.vni view.payload) }
        ensures only { (vni : ℕ) (inner : List ℕ) → IsVxlan octets.now vni inner
            → IsOkAnd result (λ view. (view.vni ≡ vni) × (view.payload ≡ inner)) }
        ensures whole { IfOk result (λ view. octets.now ≡ view.head ++ view.payload) }
        ensures head { IfOk result (λ view. view.head ≡ take 8 octets.now) }
        ensures payload { IfOk result (λ view. view.payload ≡ drop 8 octets.now) }
    {
        if octets.len() < HEADER_LENGTH {
            return Err(VxlanFault::ShortTunnel);
        }
        if octets[0] / VNI_IS_VALID % 2 == 0 {
            return Err(VxlanFault::NoVniFlag);
        }
        Ok(VxlanView {
            head: &octets[..HEADER_LENGTH],
            vni: Vni::from_octets([octets[4], octets[5], octets[6]]),
            payload: &octets[HEADER_LENGTH..],
        })
    }

    /// The header as it stands, octets 0 to 7.
    pub fn head(&self) -> &'a [u8]
        ensures { result.now ≡ self.now.head }
    {
        self.head
    }

    /// The network identifier, octets 4 to 6.
    pub fn vni(&self) -> Vni
        ensures { result ≡ self.now.vni }
    {
        self.vni
    }

    /// The frame inside, from octet 8 on.
    pub fn payload(&self) -> &'a [u8]
        ensures { result.now ≡ self.now.payload }
    {
        self.payload
    }
}
