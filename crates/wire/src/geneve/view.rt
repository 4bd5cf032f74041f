//! Reading a Geneve packet.
ghost use Rattle.std.specs.Prelude.{◌≡◌, ℕ, List, ◌+◌, ◌*◌, ◌++◌, ◌≤◌, length, IfOk, IsOkAnd, IsErrOf, IsTrue, IsFalse, take, drop};
ghost use Rattle.wire.specs.First.{first, fault_of};
ghost use Rattle.wire.specs.Geneve.{IsGeneve};
ghost use Rattle.wire.specs.GeneveOptions.{TunnelOption, allowed};
ghost use Rattle.wire.specs.GeneveReading.{geneve_faults, option_faults, head_length, reason_of};
ghost use Rattle.wire.specs.declared.geneve.view.GeneveFault.TheVariants.{CriticalOption};

use crate::ether::Reason;
use crate::geneve::options::split_option;
use crate::geneve::{GeneveOptions, Known};
use crate::vxlan::Vni;
use byteorder::{BigEndian, ByteOrder};
use std::marker::Model;
use thiserror::Error;

/// The octets of a header without its options.
const FIXED_LENGTH: usize = 8;
/// The protocol type of Ethernet frames (RFC 8926, 3.4).
pub(crate) const ETHERNET: u16 = 0x6558;

/// Why a text is no Geneve packet, or none that is taken.
#[derive(Clone, Copy, Debug, PartialEq, Eq, Error)]
pub enum GeneveFault {
    /// Fewer than 8 octets, or fewer than the header has with its options.
    #[error("ShortTunnel")]
    ShortTunnel,
    /// The version is not 0.
    #[error("BadVersion")]
    BadVersion,
    /// The bit O is 1: a control packet.
    #[error("Control")]
    Control,
    /// The protocol type is not 6558.
    #[error("NotEthernet")]
    NotEthernet,
    /// The lengths of the options don't add up to Opt Len.
    #[error("BadOptions")]
    BadOptions,
    /// A critical option isn't known.
    #[error("CriticalOption")]
    CriticalOption,
}

impl From<GeneveFault> for Reason {
    ghost from_gives = { λ fault reason. reason ≡ reason_of fault };

    fn from(fault: GeneveFault) -> Reason {
        match fault {
            GeneveFault::ShortTunnel => Reason::ShortTunnel,
            GeneveFault::BadVersion => Reason::BadVersion,
            GeneveFault::Control => Reason::Control,
            GeneveFault::NotEthernet => Reason::NotEthernet,
            GeneveFault::BadOptions => Reason::BadOptions,
            GeneveFault::CriticalOption => Reason::CriticalOption,
        }
    }
}

/// A Geneve packet, seen by contracts as its header, its identifier, its options and its payload.
#[derive(Debug, Drop)]
pub struct GeneveView<'a> {
    // The header with its options.
    head: &'a [u8],
    vni: Vni,
    // The texts of the options, side by side.
    options: &'a [u8],
    payload: &'a [u8],
}

impl<'a> Model for GeneveView<'a> {
    ghost use Rattle.std.specs.Prelude.{IsTrue, is_some, ◌≤◌, length};
    ghost use Rattle.wire.specs.GeneveOptions.{options_in, option_list};
    ghost use Rattle.wire.specs.Geneve.{GeneveParts};

    ghost Value = { GeneveParts };

    ghost view = { λ v. record {
      head = v.head.now;
      vni = v.vni;
      options = option_list v.options.now;
      payload = v.payload.now;
    } };

    ghost invariant = { λ v. IsTrue (is_some (options_in v.options.now)) × (length v.options.now ≤ 252) };
}

impl<'a> GeneveView<'a> {
    /// Reads a packet (RFC 8926, 3.4). The faults in the order of the checks: `ShortTunnel` (fewer than 8 octets),
    /// `BadVersion`, `ShortTunnel` (options beyond the text), `Control`, `NotEthernet`, `BadOptions`,
    /// `CriticalOption` (an option with a type of 128 or more isn't on the list `known`, by class and whole type octet).
    /// The options are looked at whatever the bit C says. It and the reserved bits are ignored.
    pub fn read(octets: &'a [u8], known: &Known) -> Result<GeneveView<'a>, GeneveFault>
        ensures fault { fault_of result ≡ first (geneve_faults known.now octets.now) }
        ensures packet { IfOk result (λ view. IsGeneve octets.now view.vni view.options view.payload) }
        ensures allowed { IfOk result (λ view. IsTrue (allowed known.now view.options)) }
        ensures only { (vni : ℕ) (options : List TunnelOption) (inner : List ℕ) → IsGeneve octets.now vni options inner
            → IsTrue (allowed known.now options)
            → IsOkAnd result (λ view. (view.vni ≡ vni) × (view.options ≡ options) × (view.payload ≡ inner)) }
        ensures critical { (vni : ℕ) (options : List TunnelOption) (inner : List ℕ) → IsGeneve octets.now vni options inner
            → IsFalse (allowed known.now options) → IsErrOf result CriticalOption }
        ensures whole { IfOk result (λ view. octets.now ≡ view.head ++ view.payload) }
        ensures head { IfOk result (λ view. view.head ≡ take (head_length octets.now) octets.now) }
        ensures payload { IfOk result (λ view. view.payload ≡ drop (head_length octets.now) octets.now) }
    {
        if octets.len() < FIXED_LENGTH {
            return Err(GeneveFault::ShortTunnel);
        }
        if octets[0] / 64 != 0 {
            return Err(GeneveFault::BadVersion);
        }
        let end = FIXED_LENGTH + usize::from(octets[0] % 64) * 4;
        if octets.len() < end {
            return Err(GeneveFault::ShortTunnel);
        }
        if octets[1] >= 128 {
            return Err(GeneveFault::Control);
        }
        if BigEndian::read_u16(&octets[2..]) != ETHERNET {
            return Err(GeneveFault::NotEthernet);
        }
        let options = &octets[FIXED_LENGTH..end];
        check_options(options, known)?;
        Ok(GeneveView {
            head: &octets[..end],
            vni: Vni::from_octets([octets[4], octets[5], octets[6]]),
            options,
            payload: &octets[end..],
        })
    }

    /// The header with its options as it stands: 8 to 260 octets.
    pub fn head(&self) -> &'a [u8]
        ensures { result.now ≡ self.now.head }
    {
        self.head
    }

    /// The network identifier, octets 4 to 6.
    pub fn vni(&self) -> Vni
        ensures { result ≡ self.now.vni }
    {
        self.vni
    }

    /// The options, in order: at most 63.
    pub fn options(&self) -> GeneveOptions<'a>
        ensures value { result ≡ self.now.options }
        ensures few { length result ≤ 63 }
    {
        GeneveOptions::of(self.options)
    }

    /// The frame inside, behind the options.
    pub fn payload(&self) -> &'a [u8]
        ensures { result.now ≡ self.now.payload }
    {
        self.payload
    }
}

/// Walks over the texts of options. `BadOptions`: they are not whole options, one behind the other. `CriticalOption`:
/// they are, and one isn't accepted.
fn check_options(text: &[u8], known: &Known) -> Result<(), GeneveFault>
    ensures { fault_of result ≡ first (option_faults known.now text.now) }
{
    let mut is_accepted = true;
    let mut left = text;
    while let Some((option, rest)) = split_option(left) {
        is_accepted &= known.accepts(option.class, option.kind);
        left = rest;
    }
    if !left.is_empty() {
        Err(GeneveFault::BadOptions)
    } else if !is_accepted {
        Err(GeneveFault::CriticalOption)
    } else {
        Ok(())
    }
}
