//! Octets as words, and a frame.
use std::alloc::Global;
use std::test::Fail;

/// Words that stand for octets: the header of a capture (little-endian, nanoseconds), addresses, the Ethernet headers of
/// IPv4 and IPv6, and for `OUTERab` all headers up to UDP's of a packet from 192.0.2.a to 192.0.2.b with 68 octets for
/// VXLAN in it.
const WORDS: [(&str, &str); 14] = [
    (
        "PCAP",
        "4D3CB2A102000400000000000000000000000400\
         01000000",
    ),
    ("ALL", "FFFFFFFFFFFF"),
    ("M1", "020000000001"),
    ("M2", "020000000002"),
    ("M3", "020000000003"),
    ("M5", "020000000005"),
    ("M6", "020000000006"),
    ("M7", "020000000007"),
    ("M9", "020000000009"),
    ("ETHER", "02000000AAFE02000000AA010800"),
    ("ETHER6", "02000000AAFE02000000AA0186DD"),
    (
        "OUTER12",
        "02000000AAFE02000000AA0108004500006000004000\
         4011B689C0000201C0000202CA0712B5004C0000",
    ),
    (
        "OUTER21",
        "02000000AAFE02000000AA0208004500006000004000\
         4011B689C0000202C0000201CA0712B5004C0000",
    ),
    (
        "OUTER31",
        "02000000AAFE02000000AA0308004500006000004000\
         4011B688C0000203C0000201CA0712B5004C0000",
    ),
];

/// The addresses and the type of a broadcast.
const BROADCAST: [u8; 14] = [
    0xFF, 0xFF, 0xFF, 0xFF, 0xFF, 0xFF, 0x02, 0, 0, 0, 0, 0x01, 0x08, 0x06,
];

/// The octets of a frame from 02-00-00-00-00-01 to everybody, of type 0806, all zero behind that.
pub fn broadcast<const N: usize>() -> [u8; N] {
    let mut octets = [0; N];
    for (octet, told) in octets.iter_mut().zip(&BROADCAST) {
        *octet = *told;
    }
    octets
}

/// What a word stands for in a table of names; itself where it stands for nothing there.
pub fn meaning_of<'w>(table: &[(&'w str, &'w str)], word: &'w str) -> &'w str {
    for (name, meaning) in table {
        if *name == word {
            return *meaning;
        }
    }
    word
}

/// The octets of words: names, hexadecimal digits, and `00*n` for n zero octets.
pub fn octets_of(alloc: Global, words: &str) -> Result<Vec<u8>, Fail> {
    let mut octets = Vec::new(alloc);
    for word in words.split_whitespace() {
        match word.strip_prefix("00*") {
            Some(count) => {
                let count = count.parse::<u16>()?;
                octets.resize(octets.len().saturating_add(usize::from(count)), 0)?;
            }
            None => octets.append(&mut hex::decode(alloc, meaning_of(&WORDS, word))?)?,
        }
    }
    Ok(octets)
}
