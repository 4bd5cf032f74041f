//! Captures written to outputs that take little, and to outputs that fail.
use pcap::stream::{DeviceFault, Output, Sink, StdOutput, WriteFault};
use pcap::text::put_record;
use std::alloc::Global;
use std::test::Fail;
use test_inputs::Room;
use test_inputs::capture_texts::TWO_RECORDS;

/// Puts the two records of `TWO_RECORDS`, behind the header.
pub fn put_two<W: Output>(sink: &mut Sink<W>) -> Result<(), WriteFault> {
    sink.begin()?;
    sink.put(1_000_000_005, &[7], &[8], &[], &[9])?;
    sink.put(2_000_000_000, &[], &[], &[], &[4])
}

/// Whether two records are written by at most so many octets a write.
fn writes_two(alloc: Global, most: usize) -> bool {
    let mut sink = Sink::new(Room::new(alloc, most, 0, false));
    put_two(&mut sink).is_ok() && sink.into_inner().octets.as_slice() == TWO_RECORDS
}

#[test]
fn writes_through_an_output_that_takes_little(rt: HostRuntime) {
    for most in [1, 7, 4096] {
        assert!(rt; writes_two(rt.alloc(), most), "by {most}");
    }
}

/// How many octets stand before the n-th write, each of at most seven octets, of a header and of two records in parts: what
/// stands before a record's body, and the body.
const BEFORE: [usize; 12] = [0, 7, 14, 21, 24, 31, 38, 42, 43, 50, 57, 59];

/// Whether a write that fails or takes nothing is told, and everything behind it, with so many octets written before it.
fn tells_a_write(alloc: Global, n: u64, fails: bool, before: usize) -> bool {
    let mut sink = Sink::new(Room::new(alloc, 7, n, fails));
    if put_two(&mut sink).is_ok() || sink.begin().is_ok() {
        return false;
    }
    if sink.put(0, &[1], &[], &[], &[]).is_ok() {
        return false;
    }
    Some(sink.into_inner().octets.as_slice()) == TWO_RECORDS.get(..before)
}

#[test]
fn tells_each_write_that_fails(rt: HostRuntime) {
    let mut n = 1;
    for before in BEFORE {
        for (fails, what) in [(true, "fails"), (false, "takes nothing")] {
            let is_told = tells_a_write(rt.alloc(), n, fails, before);
            assert!(rt; is_told, "write {n} that {what}");
        }
        n = n.saturating_add(1);
    }
    let mut sink = Sink::new(Room::new(rt.alloc(), 7, 13, true));
    assert!(rt; put_two(&mut sink).is_ok());
}

/// More stands before the body than an endpoint ever puts there.
#[test]
fn writes_a_long_head(rt: HostRuntime) -> Result<(), Fail> {
    let head = [6; 100];
    let mut sink = Sink::new(StdOutput::new(Vec::new(rt.alloc())));
    assert!(rt; sink.put(5, &head, &[7], &[8], &[9]).is_ok());
    let written = sink.into_inner().into_inner();
    let mut expected = Vec::new(rt.alloc());
    put_record(&mut expected, 5, &head, &[7], &[8], &[9])?;
    assert!(rt; written.as_slice() == expected.as_slice());
    Ok(())
}

#[test]
fn faults_of_devices_and_of_writes_have_texts(rt: HostRuntime) -> Result<(), Fail> {
    let text = DeviceFault.to_string(rt.alloc())?;
    assert!(rt; text.as_str() == "the device failed");
    let text = WriteFault.to_string(rt.alloc())?;
    assert!(rt; text.as_str() == "Write");
    Ok(())
}
