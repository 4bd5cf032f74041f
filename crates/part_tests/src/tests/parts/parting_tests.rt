//! Parts of a run.
use part_record::{PartingFault, part_all};
use segment_set::SegmentSet;
use std::alloc::Global;
use std::test::Fail;

/// Lists of parts with a blank between them, and the fault of each.
const PARTS: [(&str, Option<PartingFault>); 10] = [
    ("all", None),
    ("1-4094,none", None),
    ("1-2000 2001-4094,none", None),
    ("4094,none 2-4093 1", None),
    ("all none", Some(PartingFault::NoneDoubled)),
    ("1-4094", Some(PartingFault::NoneMissing)),
    ("2-4094 none", Some(PartingFault::Missing(1))),
    ("1-4093,none", Some(PartingFault::Missing(4094))),
    ("1-100,none 100-4094", Some(PartingFault::Doubled(100))),
    ("1-9,11-4094 30,none", Some(PartingFault::Missing(10))),
];

/// Whether parts of these lists have this fault.
fn has_fault(alloc: Global, lists: &str, fault: Option<PartingFault>) -> Result<bool, Fail> {
    let mut parts = Vec::new(alloc);
    for list in lists.split(' ') {
        let Ok(set) = SegmentSet::parse(list) else {
            return Ok(false);
        };
        if let Err(_) = parts.push(set) {
            return Ok(false);
        }
    }
    Ok(part_all(parts.as_slice()).err() == fault)
}

#[test]
fn tells_what_is_in_no_part_or_in_more_than_one(rt: HostRuntime) -> Result<(), Fail> {
    for (lists, fault) in PARTS {
        assert!(rt; has_fault(rt.alloc(), lists, fault)?, "{lists}");
    }
    Ok(())
}
