//! Inputs whose first octets are looked at.
use pcap::kind::peek;
use pcap::stream::Input;
use std::alloc::Global;
use std::test::Fail;
use test_inputs::{in_pieces, octets_of};

/// Texts of 0, 1, 23, 24, 25 and 60 octets, as words.
const TEXTS: [&str; 6] = [
    "",
    "07",
    "00*22 07",
    "00*23 07",
    "00*23 0708",
    "00*23 07 00*35 08",
];

/// Whether the first 24 octets of a text are told, and all are handed out again, by reads of at most so many.
fn is_handed_out(alloc: Global, text: &[u8], most: usize) -> Result<bool, Fail> {
    let Ok((head, mut input)) = peek(in_pieces(text, most, 0)) else {
        return Ok(false);
    };
    let mut octets = Vec::new(alloc);
    let mut room = [0; 10];
    for _read in 0..100 {
        let Ok(n) = input.read(&mut room) else {
            return Ok(false);
        };
        octets.extend_from_slice(&room[..n])?;
    }
    Ok(octets.as_slice() == text && head.octets() == &text[..text.len().min(24)])
}

#[test]
fn hands_out_again_what_it_told(rt: HostRuntime) -> Result<(), Fail> {
    for words in TEXTS {
        let text = octets_of(rt.alloc(), words)?;
        for most in [1, 7, 100] {
            assert!(rt;
                is_handed_out(rt.alloc(), text.as_slice(), most)?,
                "{words}"
            );
        }
    }
    Ok(())
}

/// A header of 24 octets that come 7 at a time takes four reads.
#[test]
fn gives_an_input_back_whose_read_fails(rt: HostRuntime) -> Result<(), Fail> {
    let text = octets_of(rt.alloc(), "PCAP")?;
    for fails_at in 1..6 {
        let calls = match peek(in_pieces(text.as_slice(), 7, fails_at)) {
            Ok(_) => 0,
            Err(input) => input.calls,
        };
        assert!(rt;
            calls == if fails_at < 5 { fails_at } else { 0 },
            "{fails_at}"
        );
    }
    Ok(())
}
