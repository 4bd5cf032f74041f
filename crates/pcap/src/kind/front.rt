//! A look at the first octets of an input.
ghost use Rattle.std.specs.Prelude.{◌≡◌, ◌≤◌, ◌<◌, length, IfErr, IfOk};
ghost use Rattle.std.specs.Io.KnownBytes.{Consumes, IsAtEnd, Keeps};
ghost use Rattle.pcap.specs.Counts.{CountsFaults, GoesOnBy};
ghost use Rattle.pcap.specs.Head.{IsHeadOf, ahead, octets_in};

use crate::kind::head::{HEAD_LENGTH, Head};
use crate::kind::peeked::Peeked;
use crate::stream::{DeviceFault, Input, read_behind};

/// Takes the first octets from an input.
fn take_head<R: Input>(input: &mut R) -> Result<Head, DeviceFault>
    ensures taken { IfOk result (λ head. Consumes (R.remaining input.old) (R.remaining input.new) (octets_in head)) }
    ensures size { IfOk result (λ head. length (octets_in head) ≤ 24) }
    ensures end { IfOk result (λ head. length (octets_in head) < 24 → IsAtEnd (R.remaining input.new)) }
    ensures failures { CountsFaults (R.failures input.old) (R.failures input.new) result }
{
    let mut octets = [0; HEAD_LENGTH];
    let mut length = 0;
    while length < HEAD_LENGTH {
        let n = read_behind(input, &mut octets, length)?;
        if n == 0 {
            return Ok(Head { octets, length });
        }
        length += n;
    }
    Ok(Head { octets, length })
}

/// Takes the first octets from an input, and gives the input that hands them out again, with both counts at 0. `Err`: a
/// read failed, and the input comes back.
pub fn peek<R: Input>(mut input: R) -> Result<(Head, Peeked<R>), R>
    ensures head { IfOk result (λ found. IsHeadOf (R.remaining input) (octets_in found.0)) }
    ensures same { IfOk result (λ found. Keeps (R.remaining input) (ahead found.1.head found.1.at (R.remaining found.1.input))) }
    ensures quiet { IfOk result (λ found. R.failures found.1.input ≡ R.failures input) }
    ensures failed { IfErr result (λ left. GoesOnBy 1 (R.failures input) (R.failures left)) }
    ensures calls { IfOk result (λ found. found.1.calls ≡ 0) }
    ensures failures { IfOk result (λ found. found.1.failures ≡ 0) }
{
    match take_head(&mut input) {
        Ok(head) => Ok((head, Peeked::new(head, input))),
        Err(_) => Err(input),
    }
}
