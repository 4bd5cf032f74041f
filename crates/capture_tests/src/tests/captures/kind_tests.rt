//! Files by their first octets.
use pcap::kind::FileKind;
use std::alloc::Global;
use std::test::Fail;
use test_inputs::octets_of;

/// Files: what each is, its first octets as words, and its sentence.
fn rows<'a>() -> &'a str {
    "\
nothing |  | the file is empty
big-endian, microseconds, of raw IP | A1B2C3D400020004000000000000000000000000000065 | \
it begins as classic pcap, of which whole headers of version 2.4 are read
little-endian, microseconds | D4C3B2A1 | it begins as classic pcap, of which whole headers of version 2.4 are read
big-endian, nanoseconds | A1B23C4D | it begins as classic pcap, of which whole headers of version 2.4 are read
little-endian, nanoseconds | PCAP | it begins as classic pcap, of which whole headers of version 2.4 are read
a magic number of three octets | A1B2C3 | \
its first octets are of no format that is known here: editcap -F nsecpcap IN OUT converts what Wireshark reads
a section header | 0A0D0D0A1C0000004D3C2B1A | it is a pcapng capture
deflate, no flags, a time, no extra flags, Unix | 1F8B08004D3C2B1A0003 | it is compressed with gzip: editcap -F nsecpcap IN OUT converts it
the two octets of gzip | 1F8B | it is compressed with gzip: editcap -F nsecpcap IN OUT converts it
pack | 1F1E | its first octets are of no format that is known here: editcap -F nsecpcap IN OUT converts what Wireshark reads
a frame of Zstandard | 28B52FFD2405 | it is compressed with zstd: editcap -F nsecpcap IN OUT converts it
its magic number, high octet first | FD2FB528 | \
its first octets are of no format that is known here: editcap -F nsecpcap IN OUT converts what Wireshark reads
snoop, version 2, Ethernet | 736E6F6F700000000000000200000004 | it is a snoop capture: editcap -F nsecpcap IN OUT converts it
snoop, without its last zero octet | 736E6F6F700000 | \
its first octets are of no format that is known here: editcap -F nsecpcap IN OUT converts what Wireshark reads
ERF of an Ethernet frame of 60 octets, padded | 0E5C7A4C2B1A4D5F0204005000000040FFFF | \
it begins as an ERF capture: editcap -F nsecpcap IN OUT converts it
ERF with a color and an extension header | 0E5C7A4C2B1A4D5F8B04005800000040 | \
it begins as an ERF capture: editcap -F nsecpcap IN OUT converts it
ERF of a cell of ATM | 0E5C7A4C2B1A4D5F0304004800000034 | \
its first octets are of no format that is known here: editcap -F nsecpcap IN OUT converts what Wireshark reads
a record of ERF without its frame's length | 0E5C7A4C2B1A4D5F02040050000000 | \
its first octets are of no format that is known here: editcap -F nsecpcap IN OUT converts what Wireshark reads
a record longer than its frame allows | 0E5C7A4C2B1A4D5F0204009200000040 | \
its first octets are of no format that is known here: editcap -F nsecpcap IN OUT converts what Wireshark reads
tabs and ends of lines | 76657273696F6E203D20310D0A09 | it is a text
space and tilde | 207E | it is a text
delete | 20207F | its first octets are of no format that is known here: editcap -F nsecpcap IN OUT converts what Wireshark reads
a control character | 201F | its first octets are of no format that is known here: editcap -F nsecpcap IN OUT converts what Wireshark reads
"
}

/// Whether a file that begins with the octets of words has this sentence.
fn is_told(alloc: Global, words: &str, sentence: &str) -> Result<bool, Fail> {
    let octets = octets_of(alloc, words)?;
    let kind = FileKind::of(octets.as_slice());
    let told = format!(in alloc; "{kind}")?;
    Ok(told.as_str() == sentence)
}

#[test]
fn tells_a_file_by_its_first_octets(rt: HostRuntime) -> Result<(), Fail> {
    for row in rows().lines() {
        let (name, rest) = row.split_once(" | ").ok_or("a name")?;
        let (words, sentence) = rest.split_once(" | ").ok_or("a sentence")?;
        assert!(rt; is_told(rt.alloc(), words, sentence)?, "{name}");
    }
    Ok(())
}
