//! Records and their texts.
use crate::tests::parts::texts::{put_lines, text_in_full};
use part_record::{Difference, PartRecordFault, record_of, same_run, text_of};
use std::alloc::Global;
use std::test::Fail;
use timeline::Tap;

/// Texts of records: of one port and of two, with changes and without, of 16 ports, and of captures that hold both directions.
const RECORDS: [&str; 6] = [
    "tep shard 4/segments 10,20-29,none/settings A/changes E/capture p1 A/capture u E/events 1234/output decisions 1 2 3 4/\
    output u 0 24 5 6/output p1 1 24 0 18446744073709551615/",
    "tep shard 4/segments all/settings E/capture p1 A/capture p2 E/capture u A/events 0/output decisions 1 2 3 4/\
    output u 0 24 5 6/output p1 1 24 0 18446744073709551615/output p2 2 24 0 18446744073709551615/",
    "tep shard 4/segments 4094/settings E/capture u A/events 18446744073709551615/output decisions 1 2 3 4/output u 0 24 5 6/",
    "tep shard 4/segments none/settings A/capture p1 A/capture p2 A/capture p3 A/capture p4 A/capture p5 A/capture p6 A/\
    capture p7 A/capture p8 A/capture p9 A/capture p10 A/capture p11 A/capture p12 A/capture p13 A/capture p14 A/capture p15 A/\
    capture p16 E/capture u E/events 7/output decisions 1 2 3 4/output u 0 24 5 6/output p1 1 24 0 18446744073709551615/\
    output p2 2 24 0 18446744073709551615/output p3 3 24 0 18446744073709551615/output p4 4 24 0 18446744073709551615/\
    output p5 5 24 0 18446744073709551615/output p6 6 24 0 18446744073709551615/output p7 7 24 0 18446744073709551615/\
    output p8 8 24 0 18446744073709551615/output p9 9 24 0 18446744073709551615/output p10 10 24 0 18446744073709551615/\
    output p11 11 24 0 18446744073709551615/output p12 12 24 0 18446744073709551615/output p13 13 24 0 18446744073709551615/\
    output p14 14 24 0 18446744073709551615/output p15 15 24 0 18446744073709551615/output p16 16 24 0 18446744073709551615/",
    "tep shard 5/segments 1-9/settings A/changes E/capture p1 A/capture u E/both 10000000/events 12/output decisions 1 2 3 4/\
    output u 0 24 5 6/output p1 1 24 0 18446744073709551615/",
    "tep shard 5/segments none/settings A/capture u E/both 18446744073709551615/events 0/output decisions 1 2 3 4/output u 0 24 5 6/",
];

/// Whether a text is written again as it was read.
fn is_written_again(alloc: Global, short: &str) -> Result<bool, Fail> {
    let text = text_in_full(alloc, short)?;
    match record_of(text.as_str()) {
        Ok((part, outputs, _)) => Ok(
            text_of(alloc, &part, outputs.as_slice())?.as_slice() == text.as_bytes(),
        ),
        Err(_) => Ok(false),
    }
}

#[test]
fn writes_what_it_reads(rt: HostRuntime) -> Result<(), Fail> {
    for short in RECORDS {
        assert!(rt; is_written_again(rt.alloc(), short)?, "{short}");
    }
    Ok(())
}

/// The record of a part with so many ports.
fn record_with_ports(alloc: Global, ports: u16) -> Result<String, Fail> {
    let mut short = String::new(alloc);
    short.push_str("tep shard 4/segments none/settings A/")?;
    put_lines(&mut short, ports, "capture p", " A/")?;
    short.push_str("capture u E/events 7/output decisions 1 2 3 4/output u 0 24 5 6/")?;
    put_lines(
        &mut short,
        ports,
        "output p",
        " 1 24 0 18446744073709551615/",
    )?;
    Ok(text_in_full(alloc, short.as_str())?)
}

#[test]
fn writes_a_record_of_255_ports_as_it_reads_it(rt: HostRuntime) -> Result<(), Fail> {
    let text = record_with_ports(rt.alloc(), 255)?;
    assert!(rt; is_written_again(rt.alloc(), text.as_str())?);
    Ok(())
}

#[test]
fn refuses_a_record_of_256_ports(rt: HostRuntime) -> Result<(), Fail> {
    let text = record_with_ports(rt.alloc(), 256)?;
    let fault = record_of(text.as_str()).err();
    assert!(rt; fault == Some(PartRecordFault::Capture));
    Ok(())
}

#[test]
fn reads_each_fact(rt: HostRuntime) -> Result<(), Fail> {
    let text = text_in_full(rt.alloc(), RECORDS[0])?;
    let Ok((part, outputs, _)) = record_of(text.as_str()) else {
        return Err(Fail::from("a record"));
    };
    assert!(rt; part.segments == "10,20-29,none");
    assert!(rt; part.settings[0] == 0xBA && part.settings[31] == 0xAD);
    assert!(rt; matches!(&part.changes, Some(sum) if sum[0] == 0xE3 && sum[31] == 0x55));
    assert!(rt; part.ports.len() == 1);
    assert!(rt; part.underlay[1] == 0xB0);
    assert!(rt; part.both.is_none());
    assert!(rt; part.events == 1234);
    assert!(rt; outputs.len() == 3);
    assert!(rt; outputs[0].records == 1 && outputs[0].sum.octets == 2);
    assert!(rt; outputs[0].sum.first == 3 && outputs[0].sum.second == 4);
    assert!(rt; outputs[1].records == 0 && outputs[1].sum.second == 6);
    assert!(rt; outputs[2].records == 1 && outputs[2].sum.second == u64::MAX);
    Ok(())
}

#[test]
fn reads_how_long_behind_its_frame_what_was_sent_may_come(rt: HostRuntime) -> Result<(), Fail> {
    let text = text_in_full(rt.alloc(), RECORDS[4])?;
    let told = match record_of(text.as_str()) {
        Ok((part, _, _)) => part.both,
        Err(_) => None,
    };
    assert!(rt; told == Some(10_000_000));
    Ok(())
}

/// Texts that are none of a record's, each with the fault that it has.
const FAULTS: [(&str, PartRecordFault); 35] = [
    ("", PartRecordFault::Head),
    (
        "tep shard 6/segments 1/settings A/capture u E/events 1/",
        PartRecordFault::Head,
    ),
    (
        "tep shard 5/segments 1/settings A/capture u E/events 1/",
        PartRecordFault::Both,
    ),
    (
        "tep shard 5/segments 1/settings A/capture u E/both 01/events 1/",
        PartRecordFault::Both,
    ),
    (
        "tep shard 5/segments 1/settings A/capture u E/both 18446744073709551616/events 1/",
        PartRecordFault::Both,
    ),
    (
        "tep shard 5/segments 1/settings A/both 1/capture u E/events 1/",
        PartRecordFault::Capture,
    ),
    (
        "tep shard 4/segments 1/settings A/capture u E/both 1/events 1/",
        PartRecordFault::Events,
    ),
    (
        "tep shard 5/segments 1/settings A/capture u E/both 1/both 1/events 1/",
        PartRecordFault::Events,
    ),
    (
        "tep shard 5/segments 1/settings A/capture u E/both 1/",
        PartRecordFault::Events,
    ),
    ("tep shard 4", PartRecordFault::Head),
    (
        "tep shard 4/settings A/segments 1/capture u E/events 1/",
        PartRecordFault::Segments,
    ),
    ("tep shard 4/segments 1", PartRecordFault::Segments),
    (
        "tep shard 4/segments 1/capture u E/events 1/",
        PartRecordFault::Settings,
    ),
    (
        "tep shard 4/segments 1/settings A0/capture u E/events 1/",
        PartRecordFault::Settings,
    ),
    (
        "tep shard 4/segments 1/settings BA7816BF8F01CFEb414140DE5DbE2223B00361b396177b9CB410FF61F20015bD/capture u E/events 1/",
        PartRecordFault::Settings,
    ),
    (
        "tep shard 4/segments 1/settings A/changes none/capture u E/events 1/",
        PartRecordFault::Changes,
    ),
    (
        "tep shard 4/segments 1/settings A/changes A/changes A/capture u E/events 1/",
        PartRecordFault::Changes,
    ),
    (
        "tep shard 4/segments 1/settings A/capture p1 A/changes A/capture u E/events 1/",
        PartRecordFault::Changes,
    ),
    (
        "tep shard 4/segments 1/settings A/capture p2 A/capture u E/events 1/",
        PartRecordFault::Capture,
    ),
    (
        "tep shard 4/segments 1/settings A/capture p1 A/events 1/",
        PartRecordFault::Capture,
    ),
    (
        "tep shard 4/segments 1/settings A/capture p1 A/capture p1 A/capture u E/events 1/",
        PartRecordFault::Capture,
    ),
    (
        "tep shard 4/segments 1/settings A/capture u E/",
        PartRecordFault::Events,
    ),
    (
        "tep shard 4/segments 1/settings A/capture u E/events 1",
        PartRecordFault::Events,
    ),
    (
        "tep shard 4/segments 1/settings A/capture u E/events 01/",
        PartRecordFault::Events,
    ),
    (
        "tep shard 4/segments 1/settings A/capture u E/events 18446744073709551616/",
        PartRecordFault::Events,
    ),
    (
        "tep shard 1/segments 1/settings A/capture u E/events 1/",
        PartRecordFault::Older,
    ),
    (
        "tep shard 4/segments 1/settings A/capture u E/events 1/",
        PartRecordFault::Output,
    ),
    (
        "tep shard 4/segments 1/settings A/capture u E/events 1/output u 0 24 5 6/output decisions 1 2 3 4/",
        PartRecordFault::Output,
    ),
    (
        "tep shard 4/segments 1/settings A/capture u E/events 1/output decisions 1 2 3/output u 0 24 5 6/",
        PartRecordFault::Output,
    ),
    (
        "tep shard 4/segments 1/settings A/capture u E/events 1/output decisions 1 2 3 4 5/output u 0 24 5 6/",
        PartRecordFault::Output,
    ),
    (
        "tep shard 4/segments 1/settings A/capture u E/events 1/output decisions 1 2 03 4/output u 0 24 5 6/",
        PartRecordFault::Output,
    ),
    (
        "tep shard 4/segments 1/settings A/capture p1 A/capture u E/events 1/output decisions 1 2 3 4/output u 0 24 5 6/",
        PartRecordFault::Output,
    ),
    (
        "tep shard 4/segments 1/settings A/capture p1 A/capture u E/events 1/output decisions 1 2 3 4/output u 0 24 5 6/\
        output p2 0 24 5 6/",
        PartRecordFault::Output,
    ),
    (
        "tep shard 4/segments 1/settings A/capture u E/events 1/output decisions 1 2 3 4/output u 0 24 5 6/output p1 0 24 5 6/",
        PartRecordFault::Behind,
    ),
    (
        "tep shard 4/segments 1/settings A/capture u E/events 1/output decisions 1 2 3 4/output u 0 24 5 6//",
        PartRecordFault::Behind,
    ),
];

/// Whether a text is refused for this fault.
fn is_refused(alloc: Global, short: &str, fault: PartRecordFault) -> Result<bool, Fail> {
    let text = text_in_full(alloc, short)?;
    Ok(record_of(text.as_str()).err() == Some(fault))
}

#[test]
fn tells_where_a_text_is_no_records(rt: HostRuntime) -> Result<(), Fail> {
    for (short, fault) in FAULTS {
        assert!(rt; is_refused(rt.alloc(), short, fault)?, "{short}");
    }
    Ok(())
}

/// Two texts of records, and what is first different in them.
const PAIRS: [(&str, &str, Option<Difference>); 12] = [
    (
        "tep shard 4/segments 1/settings A/changes E/capture p1 A/capture u E/events 1/output decisions 1 2 3 4/output u 0 24 5 6/\
        output p1 0 24 5 6/",
        "tep shard 4/segments none/settings A/changes E/capture p1 A/capture u E/events 1/output decisions 1 2 3 4/\
        output u 0 24 5 6/output p1 0 24 5 6/",
        None,
    ),
    (
        "tep shard 4/segments 1/settings A/changes E/capture p1 A/capture u E/events 1/output decisions 1 2 3 4/output u 0 24 5 6/\
        output p1 0 24 5 6/",
        "tep shard 4/segments 1/settings E/changes A/capture p1 E/capture u A/events 2/output decisions 1 2 3 4/output u 0 24 5 6/\
        output p1 0 24 5 6/",
        Some(Difference::Settings),
    ),
    (
        "tep shard 4/segments 1/settings A/changes E/capture p1 A/capture u E/events 1/output decisions 1 2 3 4/output u 0 24 5 6/\
        output p1 0 24 5 6/",
        "tep shard 4/segments 1/settings A/changes A/capture p1 E/capture u A/events 2/output decisions 1 2 3 4/output u 0 24 5 6/\
        output p1 0 24 5 6/",
        Some(Difference::Changes),
    ),
    (
        "tep shard 4/segments 1/settings A/changes E/capture p1 A/capture u E/events 1/output decisions 1 2 3 4/output u 0 24 5 6/\
        output p1 0 24 5 6/",
        "tep shard 4/segments 1/settings A/capture p1 A/capture u E/events 1/output decisions 1 2 3 4/output u 0 24 5 6/\
        output p1 0 24 5 6/",
        Some(Difference::Changes),
    ),
    (
        "tep shard 4/segments 1/settings A/capture p1 A/capture p2 A/capture u E/events 1/output decisions 1 2 3 4/\
        output u 0 24 5 6/output p1 0 24 5 6/output p2 0 24 5 6/",
        "tep shard 4/segments 1/settings A/capture p1 A/capture p2 E/capture u A/events 1/output decisions 1 2 3 4/\
        output u 0 24 5 6/output p1 0 24 5 6/output p2 0 24 5 6/",
        Some(Difference::Capture(Tap::Port(2))),
    ),
    (
        "tep shard 4/segments 1/settings A/capture p1 A/capture u E/events 1/output decisions 1 2 3 4/output u 0 24 5 6/\
        output p1 0 24 5 6/",
        "tep shard 4/segments 1/settings A/capture p1 A/capture p2 E/capture u E/events 1/output decisions 1 2 3 4/\
        output u 0 24 5 6/output p1 0 24 5 6/output p2 0 24 5 6/",
        Some(Difference::Capture(Tap::Port(2))),
    ),
    (
        "tep shard 4/segments 1/settings A/capture p1 A/capture u E/events 1/output decisions 1 2 3 4/output u 0 24 5 6/\
        output p1 0 24 5 6/",
        "tep shard 4/segments 1/settings A/capture p1 A/capture u A/events 2/output decisions 1 2 3 4/output u 0 24 5 6/\
        output p1 0 24 5 6/",
        Some(Difference::Capture(Tap::Underlay)),
    ),
    (
        "tep shard 5/segments 1/settings A/capture p1 A/capture u E/both 10000000/events 1/output decisions 1 2 3 4/\
        output u 0 24 5 6/output p1 0 24 5 6/",
        "tep shard 5/segments 2/settings A/capture p1 A/capture u E/both 10000000/events 2/output decisions 1 2 3 4/\
        output u 0 24 5 6/output p1 0 24 5 6/",
        None,
    ),
    (
        "tep shard 5/segments 1/settings A/capture p1 A/capture u E/both 10000000/events 1/output decisions 1 2 3 4/\
        output u 0 24 5 6/output p1 0 24 5 6/",
        "tep shard 4/segments 2/settings A/capture p1 A/capture u E/events 2/output decisions 1 2 3 4/output u 0 24 5 6/\
        output p1 0 24 5 6/",
        Some(Difference::Both),
    ),
    (
        "tep shard 5/segments 1/settings A/capture p1 A/capture u E/both 10000000/events 1/output decisions 1 2 3 4/\
        output u 0 24 5 6/output p1 0 24 5 6/",
        "tep shard 5/segments 2/settings A/capture p1 A/capture u E/both 2000000/events 2/output decisions 1 2 3 4/\
        output u 0 24 5 6/output p1 0 24 5 6/",
        Some(Difference::Both),
    ),
    (
        "tep shard 5/segments 1/settings A/capture p1 A/capture u E/both 10000000/events 1/output decisions 1 2 3 4/\
        output u 0 24 5 6/output p1 0 24 5 6/",
        "tep shard 5/segments 2/settings A/capture p1 A/capture u A/both 2000000/events 2/output decisions 1 2 3 4/\
        output u 0 24 5 6/output p1 0 24 5 6/",
        Some(Difference::Capture(Tap::Underlay)),
    ),
    (
        "tep shard 4/segments 1/settings A/capture p1 A/capture u E/events 1/output decisions 1 2 3 4/output u 0 24 5 6/\
        output p1 0 24 5 6/",
        "tep shard 4/segments 1/settings A/capture p1 A/capture u E/events 2/output decisions 7 8 9 10/output u 11 12 13 14/\
        output p1 15 16 17 18/",
        None,
    ),
];

/// Whether two texts are of records that differ first in this, or, for None, are of one run.
fn differ_in(
    alloc: Global,
    a: &str,
    b: &str,
    difference: Option<Difference>,
) -> Result<bool, Fail> {
    let a = text_in_full(alloc, a)?;
    let b = text_in_full(alloc, b)?;
    let (Ok((one, _, _)), Ok((other, _, _))) = (record_of(a.as_str()), record_of(b.as_str())) else {
        return Ok(false);
    };
    Ok(same_run(&one, &other).err() == difference && same_run(&other, &one).err() == difference)
}

#[test]
fn tells_what_two_runs_differ_in(rt: HostRuntime) -> Result<(), Fail> {
    for (a, b, difference) in PAIRS {
        assert!(rt; differ_in(rt.alloc(), a, b, difference)?, "{a} and {b}");
    }
    Ok(())
}

/// What a fault and a difference print.
#[test]
fn prints_faults_as_sentences(rt: HostRuntime) -> Result<(), Fail> {
    let fault = PartRecordFault::Settings;
    let difference = Difference::Capture(Tap::Port(3));
    let told = format!(in rt.alloc(); "{fault}; {difference}")?;
    assert!(rt;
        told.as_str()
            == "the third line is not 'settings' and a digest; it was made from another capture p3 than the first part",
        "{told}"
    );
    Ok(())
}
