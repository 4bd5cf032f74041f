//! Digests and numbers of octets that are taken on the way.
use crate::tests::parts::texts::{OF_ABC, OF_NOTHING};
use part_record::DigestInput;
use pcap::stream::Input;
use std::alloc::Global;
use std::test::Fail;
use test_inputs::{in_pieces, octets_of};

/// Texts as words, and the digest of each by `sha256sum`: nothing, `abc`, and 10,000 zeros.
const DIGESTS: [(&str, &str); 3] = [
    ("", OF_NOTHING),
    ("616263", OF_ABC),
    (
        "00*10000",
        "95b532cc4381affdff0d956e12520a04129ed49d37e154228368fe5621f0b9a2",
    ),
];

/// Whether a text that comes in pieces, of which some are read before the end is asked for, is handed on as it is and has this
/// digest.
fn has_digest(
    alloc: Global,
    text: &[u8],
    most: usize,
    reads: u8,
    expected: &str,
) -> Result<bool, Fail> {
    let mut input = DigestInput::new(in_pieces(text, most, 0), true);
    let mut room = [0; 10];
    let mut front = Vec::new(alloc);
    for _read in 0..reads {
        let Ok(n) = input.read(&mut room) else {
            return Ok(false);
        };
        front.extend_from_slice(&room[..n])?;
    }
    if input.finish(100_000).is_err() {
        return Ok(false);
    }
    let Some(digest) = input.digest() else {
        return Ok(false);
    };
    let digits = hex::encode(alloc, digest.sum)?;
    Ok(
        digits.as_str() == expected
            && digest.octets == text.len() as u64
            && text.starts_with(front.as_slice()),
    )
}

#[test]
fn takes_the_digest_of_what_it_hands_on(rt: HostRuntime) -> Result<(), Fail> {
    for (words, expected) in DIGESTS {
        let text = octets_of(rt.alloc(), words)?;
        for most in [1, 7, 5000] {
            for reads in [0, 1, 20] {
                assert!(rt;
                    has_digest(rt.alloc(), text.as_slice(), most, reads, expected)?,
                    "{words} by {most}"
                );
            }
        }
    }
    Ok(())
}

/// Octets by ones take as many reads, and one more that finds the end.
#[test]
fn gives_up_where_a_read_fails_and_behind_the_last_read(rt: HostRuntime) -> Result<(), Fail> {
    let text = octets_of(rt.alloc(), "616263")?;
    let mut failing = DigestInput::new(in_pieces(text.as_slice(), 1, 2), true);
    assert!(rt; failing.finish(10).is_err());
    let mut short = DigestInput::new(in_pieces(text.as_slice(), 1, 0), true);
    assert!(rt; short.finish(3).is_err());
    let mut enough = DigestInput::new(in_pieces(text.as_slice(), 1, 0), true);
    assert!(rt; enough.finish(4).is_ok());
    Ok(())
}
