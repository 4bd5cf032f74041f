//! Digests of captures, and the text that lends them to the parts of a run.
ghost use Rattle.std.specs.Prelude.{◌≡◌, ◌≢◌, List, IfOk, IfErr, OnErr};
ghost use Rattle.part_record.specs.Digests.{AreDigests, IsFaultIn, digests_text};
ghost use Rattle.part_record.specs.declared.digests.CaptureDigest.{CaptureDigest as ADigest};

use crate::digest_lines::{digest_behind, port_digests, put_digest, put_port_digests};
use crate::facts::MOST_PORTS;
use crate::steps::behind;
use arrayvec::ArrayVec;
use std::alloc::{AllocError, Global};
use thiserror::Error;

/// What is told of a capture as classic pcap.
#[derive(Clone, Copy, Debug, Default, PartialEq, Eq)]
pub struct CaptureDigest {
    /// How many octets it has.
    pub octets: u64,
    /// Its digest of SHA-256 (FIPS 180-4).
    pub sum: [u8; 32],
}

/// What is told of the captures of a run.
#[derive(Debug, Drop)]
pub struct CaptureDigests {
    /// Of port 1, port 2 and so on.
    pub ports: ArrayVec<CaptureDigest, MOST_PORTS>,
    /// Of the underlay.
    pub underlay: CaptureDigest,
}

/// The first place at which a text is none of digests.
#[derive(Clone, Copy, Debug, PartialEq, Eq, Error)]
pub enum DigestsFault {
    /// The first line isn't `tep digests 1`.
    #[error("the first line is not 'tep digests 1'")]
    Head,
    /// Where the next capture is expected, of a port or of the underlay, there is no line of it with a number of octets and a
    /// digest of 64 digits, in lower case.
    #[error("the line of a capture is missing, out of place or has no number and digest")]
    Capture,
    /// Something stands behind the line of the underlay's capture.
    #[error("something stands behind the line of 'capture u'")]
    Behind,
}

/// The text of digests, one capture a line. `Err`: a growth was refused.
pub fn digests_text(alloc: Global, digests: &CaptureDigests) -> Result<Vec<u8>, AllocError>
    ensures { IfOk result (λ text. text.items ≡ digests_text digests.now.ports.items digests.now.underlay) }
{
    let mut text = Vec::from_slice(alloc, b"tep digests 1\n")?;
    put_port_digests(&mut text, digests.ports.as_slice())?;
    put_digest(&mut text, b"capture u ", &digests.underlay)?;
    Ok(text)
}

/// The digests of a text, exactly as [`digests_text`] writes it.
pub fn digests_of(text: &str) -> Result<CaptureDigests, DigestsFault>
    ensures read { IfOk result (λ d. AreDigests d.ports.items d.underlay × (text.now ≡ digests_text d.ports.items d.underlay)) }
    ensures none { OnErr result ((ports : List ADigest) (underlay : ADigest)
        → AreDigests ports underlay → text.now ≢ digests_text ports underlay) }
    ensures fault { IfErr result (λ fault. IsFaultIn text.now fault) }
{
    let Some(told) = behind(text, "tep digests 1\n") else {
        return Err(DigestsFault::Head);
    };
    let (ports, under) = port_digests(told);
    let Some(last) = digest_behind(under, "capture u ") else {
        return Err(DigestsFault::Capture);
    };
    let underlay = last.0;
    let rest = last.1;
    if !rest.is_empty() {
        return Err(DigestsFault::Behind);
    }
    Ok(CaptureDigests { ports, underlay })
}
