//! The examples of FIPS 180-4, and the hasher of `sha2` beside this one.
use crate::sha256::Sha256;
use sha2::Digest;
use std::test::Fail;

/// Messages and their digests: nothing, and the two examples of FIPS 180-4 for SHA-256.
const EXAMPLES: [(&str, &[u8; 32]); 3] = [
    (
        "",
        b"\xe3\xb0\xc4\x42\x98\xfc\x1c\x14\x9a\xfb\xf4\xc8\x99\x6f\xb9\x24\x27\xae\x41\xe4\x64\x9b\x93\x4c\xa4\x95\x99\x1b\x78\x52\xb8\x55",
    ),
    (
        "abc",
        b"\xba\x78\x16\xbf\x8f\x01\xcf\xea\x41\x41\x40\xde\x5d\xae\x22\x23\xb0\x03\x61\xa3\x96\x17\x7a\x9c\xb4\x10\xff\x61\xf2\x00\x15\xad",
    ),
    (
        "abcdbcdecdefdefgefghfghighijhijkijkljklmklmnlmnomnopnopq",
        b"\x24\x8d\x6a\x61\xd2\x06\x38\xb8\xe5\xc0\x26\x93\x0c\x3e\x60\x39\xa3\x3c\xe4\x59\x64\xff\x21\x67\xf6\xec\xed\xd4\x19\xdb\x06\xc1",
    ),
];

/// The digest of a million times `a`.
const OF_MANY: [u8; 32] = [
    0xcd, 0xc7, 0x6e, 0x5c, 0x99, 0x14, 0xfb, 0x92, 0x81, 0xa1, 0xc7, 0xe2, 0x84, 0xd7, 0x3e, 0x67,
    0xf1, 0x80, 0x9a, 0x48, 0xa4, 0x97, 0x20, 0x0e, 0x04, 0x6d, 0x39, 0xcc, 0xc7, 0x11, 0x2c, 0xd0,
];

/// How many octets the front pieces of a message have.
const CUTS: [usize; 7] = [0, 1, 56, 63, 64, 65, 130];

/// Whether a message in three pieces has the digest that `sha2` gives.
fn is_as_whole(message: &[u8], first: usize, second: usize) -> bool {
    let first = first.min(message.len());
    let (front, rest) = message.split_at(first);
    let second = second.min(rest.len());
    let (middle, back) = rest.split_at(second);
    let mut hasher = Sha256::new();
    hasher.update(front);
    hasher.update(middle);
    hasher.update(back);
    hasher.finalize() == sha2::Sha256::digest(message)
}

#[test]
fn has_the_digests_of_the_standard(rt: HostRuntime) {
    for (message, expected) in EXAMPLES {
        assert!(rt; Sha256::digest(message) == *expected);
    }
    let mut hasher = Sha256::new();
    for _turn in 0..1000 {
        hasher.update([b'a'; 1000]);
    }
    assert!(rt; hasher.finalize() == OF_MANY);
}

#[test]
fn has_the_digest_of_the_other_hasher(rt: HostRuntime) {
    let mut message = [0; 300];
    for i in 0..300 {
        message[i] = (i * 37 % 251) as u8;
    }
    for len in 0..301 {
        for first in CUTS {
            for second in CUTS {
                assert!(rt; is_as_whole(&message[..len], first, second));
            }
        }
    }
}
