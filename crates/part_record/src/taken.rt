//! The digests of captures, taken as a run reads them.
ghost use Rattle.std.specs.Prelude.{IfSome};
ghost use Rattle.part_record.specs.Taken.{AreTakenOf, IsTakenOf};

use crate::digest_input::DigestInput;
use crate::digests::{CaptureDigest, CaptureDigests};
use crate::facts::MOST_PORTS;
use arrayvec::ArrayVec;
use pcap::stream::{Input, Source};

/// The digests of captures, of port 1, port 2 and so on and of the underlay, as their inputs took them of all that they handed on.
/// `None`: one of them takes none, or there are more ports than 255.
pub fn digests_taken<R: Input>(
    ports: &[Source<DigestInput<R>>],
    underlay: &Source<DigestInput<R>>,
) -> Option<CaptureDigests>
    ensures ports { IfSome result (λ digests. AreTakenOf R.remaining R.calls R.failures ports.now digests.ports.items) }
    ensures underlay { IfSome result (λ digests. IsTakenOf R.remaining R.calls R.failures underlay.now digests.underlay) }
{
    let mut digests = ArrayVec::<CaptureDigest, MOST_PORTS>::new();
    for port in ports {
        let Some(digest) = digest_taken(port) else {
            return None;
        };
        if let Err(_) = digests.try_push(digest) {
            return None;
        }
    }
    match digest_taken(underlay) {
        Some(underlay) => Some(CaptureDigests {
            ports: digests,
            underlay,
        }),
        None => None,
    }
}

/// The digest of a capture.
fn digest_taken<R: Input>(capture: &Source<DigestInput<R>>) -> Option<CaptureDigest>
    ensures { IfSome result (λ digest. IsTakenOf R.remaining R.calls R.failures capture.now digest) }
{
    capture.input().digest()
}
