//! Texts that have a fault, and what is told of it.
use crate::tests::pcapng::texts::text_of;
use pcapng_input::{Selection, classic_of};
use std::alloc::{AllocError, Global};
use std::test::Fail;
use test_inputs::three_cells;

/// Texts that have a fault: what each is, its octets as words, and the fault that it has by the draft.
const ROWS: &str = "\
nothing |  | block 1 at octet 0: NoSection
a classic capture | 4D3CB2A10200040000000000000000000000040001000000 | block 1 at octet 0: NoSection
no section header in front | INTERFACE | block 1 at octet 0: NoSection
a section header without its magic | 0A0D0D0A1C0000000000000001000000FFFFFFFFFFFFFFFF1C000000 | block 1 at octet 0: NoSection
major version 2 | 0A0D0D0A1C0000004D3C2B1A02000000FFFFFFFFFFFFFFFF1C000000 | block 1 at octet 0: BadVersion
a section header without a section length | 0A0D0D0A140000004D3C2B1A0100000014000000 | block 1 at octet 0: ShortBlock
a length of 13 | SECTION 050000000D0000000D00000000000000 | block 2 at octet 28: BadLength
a length of 8 | SECTION 050000000800000008000000 | block 2 at octet 28: BadLength
another length behind the body | SECTION 050000000C00000010000000 | block 2 at octet 28: BadLength
a description of 4 octets | SECTION 01000000100000000100000010000000 | block 2 at octet 28: ShortBlock
a tick length of no octet | SECTION 010000001800000001000000000000000900000018000000 | block 2 at octet 28: ShortBlock
an offset of 4 octets | SECTION 010000001C00000001000000000000000E000400010000001C000000 | block 2 at octet 28: ShortBlock
an option that runs out of its block | SECTION 010000001C000000010000000000000002000500616263641C000000 | block 2 at octet 28: ShortBlock
a packet of no interface | SECTION PACKET | block 2 at octet 28: UnknownInterface
a packet of an interface of the section before | SECTION INTERFACE SECTION PACKET | block 4 at octet 76: UnknownInterface
an interface of raw IP | SECTION 0100000014000000650000000000000014000000 PACKET | block 3 at octet 48: BadLink
a packet without its numbers | SECTION INTERFACE 060000001C000000000000000000000000000000000000001C000000 | block 3 at octet 48: ShortBlock
5 octets captured of 4 | SECTION INTERFACE 060000002400000000000000000000000000000005000000050000006162636424000000 | \
block 3 at octet 48: ShortBlock
262,145 octets captured | SECTION INTERFACE 0600000020000000000000000000000000000000010004000100040020000000 | block 3 at octet 48: TooLarge
a packet block of 327,684 octets | SECTION INTERFACE 060000000400050000000000 | block 3 at octet 48: TooLarge
2 ^ 32 seconds | SECTION INTERFACE 06000000240000000000000040420F000000000004000000040000006162636424000000 | block 3 at octet 48: BadMoment
a microsecond before 1970 | \
SECTION 010000002000000001000000000000000E000800FFFFFFFFFFFFFFFF20000000 \
060000002400000000000000000000003F420F0004000000040000006162636424000000 | block 3 at octet 60: BadMoment
";

/// The error of a text, as it prints: nothing where there is none.
fn error_of(alloc: Global, text: &[u8]) -> Result<String, AllocError> {
    match classic_of(alloc, Selection::All, text) {
        Ok(_) => Ok(String::new(alloc)),
        Err(error) => format!(in alloc; "{error}"),
    }
}

/// Whether the octets of words have this fault.
fn has_fault(alloc: Global, words: &str, fault: &str) -> Result<bool, Fail> {
    let text = text_of(alloc, words)?;
    let error = error_of(alloc, text.as_slice())?;
    Ok(error.as_str() == fault)
}

#[test]
fn tells_the_first_fault(rt: HostRuntime) -> Result<(), Fail> {
    for row in ROWS.lines() {
        let (name, words, fault) = three_cells(row)?;
        assert!(rt; has_fault(rt.alloc(), words, fault)?, "{name}");
    }
    Ok(())
}

#[test]
fn refuses_more_than_4096_interfaces(rt: HostRuntime) -> Result<(), Fail> {
    let mut text = text_of(rt.alloc(), "SECTION")?;
    let interface = text_of(rt.alloc(), "INTERFACE")?;
    for _interface in 0..4096 {
        text.extend_from_slice(interface.as_slice())?;
    }
    assert!(rt; error_of(rt.alloc(), text.as_slice())?.is_empty());
    text.extend_from_slice(interface.as_slice())?;
    let error = error_of(rt.alloc(), text.as_slice())?;
    assert_eq!(rt;
        error.as_str(),
        "block 4098 at octet 81948: TooManyInterfaces"
    );
    Ok(())
}
