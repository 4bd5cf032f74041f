//! The lines of captures in the text of their digests.
ghost use Rattle.std.specs.Prelude.{◌≡◌, ◌≢◌, ◌≤◌, ◌<◌, ◌+◌, ℕ, List, ◌∷◌, ◌++◌, All, decimal, length, OnOk, MatchOption};
ghost use Rattle.part_record.specs.Digests.{IsDigest, Lacks, digest_line, digest_lines, port_line};
ghost use Rattle.part_record.specs.declared.digests.CaptureDigest.{CaptureDigest as ADigest};

use crate::digests::CaptureDigest;
use crate::facts::MOST_PORTS;
use crate::steps::{behind, number_of, sum_behind};
use crate::write::{port_word, put_sum};
use arrayvec::ArrayVec;
use itoa::Buffer;
use std::alloc::AllocError;

/// Puts the line of a word and of a capture's digest behind a text.
pub(crate) fn put_digest(
    text: &mut Vec<u8>,
    word: &[u8],
    digest: &CaptureDigest,
) -> Result<(), AllocError>
    ensures { OnOk result (text.new.items ≡ text.old.items ++ digest_line word.now digest.now) }
{
    text.extend_from_slice(word)?;
    text.extend_from_slice(Buffer::new().format(digest.octets).as_bytes())?;
    text.push(b' ')?;
    put_sum(text, b"", &digest.sum)
}

/// Puts the line of a port's capture behind a text.
fn put_port_digest(text: &mut Vec<u8>, port: u8, digest: &CaptureDigest) -> Result<(), AllocError>
    ensures { OnOk result (text.new.items ≡ text.old.items ++ port_line port digest.now) }
{
    let word = port_word(*text.allocator(), port)?;
    put_digest(text, word.as_slice(), digest)
}

/// Puts the lines of the ports' captures behind a text.
pub(crate) fn put_port_digests(
    text: &mut Vec<u8>,
    digests: &[CaptureDigest],
) -> Result<(), AllocError>
    requires { length digests.now ≤ 255 }
    ensures { OnOk result (text.new.items ≡ text.old.items ++ digest_lines 1 digests.now) }
{
    for index in 0..digests.len() {
        put_port_digest(text, index as u8 + 1, &digests[index])?;
    }
    Ok(())
}

/// The first word, and what stands behind the space that ends it.
pub(crate) fn first_word(text: &str) -> Option<(&str, &str)>
    ensures { MatchOption result ((told rest : List ℕ) → text.now ≢ told ++ 32 ∷ rest)
        (λ found. (text.now ≡ found.0.now ++ 32 ∷ found.1.now) × Lacks 32 found.0.now) }
{
    text.split_once(' ')
}

/// What is told of a capture on the line of a word, and what stands behind the line.
pub(crate) fn digest_behind<'a>(text: &'a str, word: &str) -> Option<(CaptureDigest, &'a str)>
    ensures { MatchOption result ((d : ADigest) (rest : List ℕ) → IsDigest d → text.now ≢ digest_line word.now d ++ rest)
        (λ found. IsDigest found.0 × (text.now ≡ digest_line word.now found.0 ++ found.1.now)) }
{
    let told = behind(text, word)?;
    let Some((digits, summed)) = first_word(told) else {
        return None;
    };
    let Some(octets) = number_of(digits) else {
        return None;
    };
    let Some(found) = sum_behind(summed, "") else {
        return None;
    };
    let sum = found.0;
    Some((CaptureDigest { octets, sum }, found.1))
}

/// What is told of a port's capture on its line, and what stands behind the line.
fn port_digest(text: &str, port: u8) -> Option<(CaptureDigest, &str)>
    ensures { MatchOption result ((d : ADigest) (rest : List ℕ) → IsDigest d → text.now ≢ port_line port d ++ rest)
        (λ found. IsDigest found.0 × (text.now ≡ port_line port found.0 ++ found.1.now)) }
{
    let mut buffer = Buffer::new();
    let numbered = behind(text, "capture p")?;
    let told = behind(numbered, buffer.format(port))?;
    digest_behind(told, " ")
}

/// What is told of the ports' captures on their lines, 255 at most, and what stands behind these lines.
pub(crate) fn port_digests(text: &str) -> (ArrayVec<CaptureDigest, MOST_PORTS>, &str)
    ensures read { text.now ≡ digest_lines 1 result.0.items ++ result.1.now }
    ensures digests { All IsDigest result.0.items }
    ensures few { length result.0.items ≤ 255 }
    ensures all { (d : ADigest) (rest : List ℕ) → IsDigest d → length result.0.items < 255
        → result.1.now ≢ port_line (length result.0.items + 1) d ++ rest }
{
    let mut digests = ArrayVec::new();
    let mut rest = text;
    while !digests.is_full() {
        let port = digests.len() as u8 + 1;
        let Some(found) = port_digest(rest, port) else {
            return (digests, rest);
        };
        let digest = found.0;
        digests.push(digest);
        rest = found.1;
    }
    (digests, rest)
}
