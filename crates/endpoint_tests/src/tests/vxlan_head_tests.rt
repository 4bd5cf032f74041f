use crate::tests::checks::check;
use std::alloc::{AllocError, Global};
use std::test::Fail;
use wire::ether::Reason;
use wire::vxlan::{Vni, VxlanFault, VxlanView, vxlan_head};

/// Packets, and the VNI and the octets of payload in each.
const PACKETS: [(&str, &[u8], Result<(u32, usize), VxlanFault>); 10] = [
    (
        "VNI 5000",
        &[0x08, 0, 0, 0, 0x00, 0x13, 0x88, 0],
        Ok((5000, 0)),
    ),
    (
        "VNI 5000, each reserved bit set",
        &[0xFF, 0xFF, 0xFF, 0xFF, 0x00, 0x13, 0x88, 0xFF],
        Ok((5000, 0)),
    ),
    (
        "the last VNI",
        &[0x08, 0, 0, 0, 0xFF, 0xFF, 0xFF, 0],
        Ok((16_777_215, 0)),
    ),
    (
        "each flag but that of a VNI",
        &[0xF7, 0, 0, 0, 0x00, 0x13, 0x88, 0],
        Err(VxlanFault::NoVniFlag),
    ),
    (
        "each bit but that flag",
        &[0xF7, 0xFF, 0xFF, 0xFF, 0xFF, 0xFF, 0xFF, 0xFF],
        Err(VxlanFault::NoVniFlag),
    ),
    ("no bit", &[0; 8], Err(VxlanFault::NoVniFlag)),
    ("no octet", &[], Err(VxlanFault::ShortTunnel)),
    (
        "7 octets",
        &[0x08, 0, 0, 0, 0x00, 0x13, 0x88],
        Err(VxlanFault::ShortTunnel),
    ),
    (
        "8 octets",
        &[0x08, 0, 0, 0, 0x00, 0x13, 0x88, 0],
        Ok((5000, 0)),
    ),
    (
        "10 octets",
        &[0x08, 0, 0, 0, 0x00, 0x13, 0x88, 0, 0xAA, 0xBB],
        Ok((5000, 2)),
    ),
];

/// Whether a packet has this VNI and so many octets of payload, or this fault.
fn is_read(packet: &[u8], wanted: Result<(u32, usize), VxlanFault>) -> bool {
    match (VxlanView::read(packet), wanted) {
        (Ok(view), Ok((vni, length))) => view.vni().get() == vni && view.payload().len() == length,
        (Err(fault), Err(wanted)) => fault == wanted,
        _ => false,
    }
}

#[test]
fn reads_headers_and_what_stands_behind(rt: HostRuntime) {
    for (case, packet, wanted) in PACKETS {
        check(&rt, is_read(packet, wanted), case);
    }
}

/// Numbers, and the header of each that is a VNI.
const HEADERS: [(&str, u32, Option<[u8; 8]>); 4] = [
    ("VNI 0", 0, Some([0x08, 0, 0, 0, 0, 0, 0, 0])),
    ("VNI 5000", 5000, Some([0x08, 0, 0, 0, 0x00, 0x13, 0x88, 0])),
    (
        "VNI 16777215",
        16_777_215,
        Some([0x08, 0, 0, 0, 0xFF, 0xFF, 0xFF, 0]),
    ),
    ("VNI 16777216", 16_777_216, None),
];

/// Whether a number is a VNI with this header, or none where no header is told.
fn is_written(number: u32, wanted: Option<[u8; 8]>) -> bool {
    match (Vni::new(number), wanted) {
        (Some(vni), Some(header)) => vxlan_head(vni) == header,
        (None, None) => true,
        _ => false,
    }
}

#[test]
fn writes_the_header(rt: HostRuntime) {
    for (case, number, wanted) in HEADERS {
        check(&rt, is_written(number, wanted), case);
    }
}

/// Whether a fault has this name, and so has its reason of a drop.
fn is_named(alloc: Global, fault: VxlanFault, name: &str) -> Result<bool, AllocError> {
    let text = fault.to_string(alloc)?;
    Ok(text.as_str() == name && Reason::from(fault).name() == name)
}

#[test]
fn names_its_faults_as_the_reasons_of_a_drop(rt: HostRuntime) -> Result<(), Fail> {
    for (fault, name) in [
        (VxlanFault::ShortTunnel, "ShortTunnel"),
        (VxlanFault::NoVniFlag, "NoVniFlag"),
    ] {
        check(&rt, is_named(rt.alloc(), fault, name)?, name);
    }
    Ok(())
}
