//! Standard readers and writers as devices.
ghost use Rattle.std.specs.Prelude.{◌≡◌, ◌≢◌, IfOk};
ghost use Rattle.pcap.specs.Source.{New};

use pcap::stream::{DeviceFault, Input, Output, Sink, Source, StdInput, StdOutput};
use std::io::{self, ErrorKind, Read, Write};
use std::test::Fail;
use test_inputs::capture_texts::TWO_RECORDS;

/// A device of std's whose first calls a signal interrupts.
#[derive(Drop)]
struct Interrupted {
    left: u8,
}

impl Interrupted {
    fn call(&mut self) -> io::Result<usize>
        ensures { IfOk result (λ n. n ≡ 0) }
    {
        if self.left > 0 {
            self.left -= 1;
            return Err(io::Error::from(ErrorKind::Interrupted));
        }
        Ok(0)
    }
}

impl Read for Interrupted {
    fn read(&mut self, _octets: &mut [u8]) -> io::Result<usize> {
        self.call()
    }
}

impl Write for Interrupted {
    fn write(&mut self, _octets: &[u8]) -> io::Result<usize> {
        self.call()
    }

    fn flush(&mut self) -> io::Result<()> {
        Ok(())
    }
}

/// Whether a read and a write of an octet that are interrupted so many times are answered so.
fn is_answered(left: u8, wanted: Result<usize, DeviceFault>) -> bool {
    let mut input = StdInput::new(Interrupted { left });
    let mut output = StdOutput::new(Interrupted { left });
    input.read(&mut [0]) == wanted && output.write(&[0]) == wanted
}

#[test]
fn tries_again_sixteen_times(rt: HostRuntime) {
    assert!(rt; is_answered(0, Ok(0)), "no interruption");
    assert!(rt; is_answered(16, Ok(0)), "16 interruptions");
    assert!(rt; is_answered(17, Err(DeviceFault)), "17 interruptions");
}

/// Copies a record; whether there was one, and it was read and written.
fn copies_one<R: Input, W: Output>(source: &mut Source<R>, sink: &mut Sink<W>) -> bool
    requires { source.old.standing ≢ New }
    ensures { source.new.standing ≢ New }
{
    if source.fill().is_err() {
        return false;
    }
    match source.head() {
        Some(record) => sink
            .put(record.moment, &[], record.octets, &[], &[])
            .is_ok(),
        None => false,
    }
}

/// Copies a capture of two records; whether it was read and written.
fn copies_two<R: Input, W: Output>(source: &mut Source<R>, sink: &mut Sink<W>) -> bool
    requires { source.old.standing ≡ New }
{
    source.open().is_ok()
        && sink.begin().is_ok()
        && copies_one(source, sink)
        && copies_one(source, sink)
}

#[test]
fn copies_over_standard_devices(rt: HostRuntime) -> Result<(), Fail> {
    let mut source = Source::new(rt.alloc(), StdInput::new(TWO_RECORDS), 100)?;
    let mut sink = Sink::new(StdOutput::new(Vec::new(rt.alloc())));
    assert!(rt; copies_two(&mut source, &mut sink));
    let written = sink.into_inner().into_inner();
    assert!(rt; written.as_slice() == TWO_RECORDS);
    Ok(())
}
