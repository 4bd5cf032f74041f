//! Whether digests that are lent may be those of captures.
ghost use Rattle.std.specs.Prelude.{IfErr, OnOk};
ghost use Rattle.part_record.specs.Lent.{HaveOctets, IsWhatDiffers};

use crate::digests::CaptureDigests;
use thiserror::Error;
use timeline::Tap;

/// Why digests that are lent aren't those of some captures.
#[derive(Clone, Copy, Debug, PartialEq, Eq, Error)]
pub enum LentFault {
    /// They are of more or fewer ports.
    #[error("it has the digests of more or fewer ports")]
    Ports,
    /// They tell another number of octets of this capture.
    #[error("it tells another number of octets of capture {0}")]
    Octets(Tap),
}

/// Whether captures with so many octets, those of port 1, port 2 and so on and that of the underlay, may be the ones that the
/// digests are of. `Err`: why they aren't, and of several captures the first, in the order of their lines.
pub fn see_octets(digests: &CaptureDigests, ports: &[u64], underlay: u64) -> Result<(), LentFault>
    ensures ok { OnOk result (HaveOctets digests.now.ports.items digests.now.underlay ports.now underlay) }
    ensures other { IfErr result (λ fault. IsWhatDiffers digests.now.ports.items digests.now.underlay ports.now underlay fault) }
{
    if digests.ports.len() != ports.len() {
        return Err(LentFault::Ports);
    }
    for index in 0..ports.len() {
        if digests.ports[index].octets != ports[index] {
            return Err(LentFault::Octets(Tap::Port(index as u8 + 1)));
        }
    }
    if digests.underlay.octets != underlay {
        return Err(LentFault::Octets(Tap::Underlay));
    }
    Ok(())
}
