//! The events of the records of one place.
ghost use Rattle.std.specs.Prelude.{◌≡◌, ◌<◌, ◌+◌, ◌^◌, ℕ, List, Some, IfOk, OnOk};
ghost use Rattle.compare_on_files.specs.Finding.{IsFound, IsPassed, ReadsBy, StandsIn, fault_of};

use crate::events::fault::EventFault;
use crate::events::telling::step_by;
use line_stream::{Lines, LinesFault};
use pcap::stream::Input;
use std::alloc::{AllocError, Global};
use std::marker::Model;
use timeline::Tap;

/// The events of the records of one place, by the decision lines of a run, which are read forward only.
#[derive(Drop)]
pub struct RecordEvents<R: Input> {
    lines: Lines<R>,
    tap: Tap,
    /// How many records of the place stand in front of those of the event that was read last.
    passed: u64,
    /// The number of that event, 0 where none was read.
    number: u64,
    /// How many records it has at the place.
    count: u64,
}

impl<R: Input> Model for RecordEvents<R> {
    ghost use Rattle.compare_on_files.specs.Finding.{Standing};

    ghost Value = { Standing };

    ghost view = { λ e. record {
      tap = e.tap;
      passed = e.passed;
      number = e.number;
      count = e.count;
      rest = e.lines.rest;
      failures = e.lines.failures;
    } };
}

impl<R: Input> RecordEvents<R> {
    /// Those of a place. It reserves room for a line, 131,072 octets, and reads nothing.
    pub fn new(alloc: Global, input: R, tap: Tap) -> Result<RecordEvents<R>, AllocError>
    where
        R: Drop,
        ensures place { IfOk result (λ e. e.tap ≡ tap) }
        ensures passed { IfOk result (λ e. e.passed ≡ 0) }
        ensures stands { IfOk result (λ e. (text : List ℕ) → R.remaining input ≡ Some text → StandsIn text e) }
    {
        let lines = Lines::new(alloc, input)?;
        Ok(RecordEvents {
            lines,
            tap,
            passed: 0,
            number: 0,
            count: 0,
        })
    }

    /// The number of the event of record k of the place, from 1. Records are asked for in rising order; one that
    /// stands in front of those of the event that was told last is `Passed`. After another fault nothing is told any more.
    pub fn event_of(&mut self, k: u64) -> Result<u64, EventFault>
        ensures place { self.new.tap ≡ self.old.tap }
        ensures found { (text : List ℕ) → StandsIn text self.old → IsFound text self.old k result }
        ensures stands { (text : List ℕ) → StandsIn text self.old → OnOk result (StandsIn text self.new) }
        ensures passed { OnOk result (self.new.passed < k) }
        ensures reads { ReadsBy self.old.failures self.new.failures result }
    {
        if k <= self.passed {
            return Err(EventFault::Passed);
        }
        while k - self.passed > self.count {
            if let Err(fault) = self.pass() {
                return Err(fault);
            }
        }
        Ok(self.number)
    }

    /// Reads the next event.
    fn pass(&mut self) -> Result<(), EventFault>
        requires { self.old.passed + self.old.count < 2 ^ 64 }
        ensures place { self.new.tap ≡ self.old.tap }
        ensures passed { (text : List ℕ) → StandsIn text self.old → IsPassed text self.old self.new result }
        ensures count { OnOk result (self.new.passed ≡ self.old.passed + self.old.count) }
        ensures later { OnOk result (self.old.number < self.new.number) }
        ensures fits { OnOk result (self.new.number < 2 ^ 64) }
        ensures reads { ReadsBy self.old.failures self.new.failures result }
    {
        if let Err(fault) = self.lines.fetch() {
            return Err(fault_of(fault));
        }
        let step = match step_by(self.lines.line(), self.tap, self.number) {
            Ok(step) => step,
            Err(fault) => return Err(fault),
        };
        self.passed += self.count;
        self.number = step.number;
        self.count = step.count;
        Ok(())
    }
}

/// Why no line comes.
fn fault_of(fault: LinesFault) -> EventFault
    ensures { result ≡ fault_of fault }
{
    match fault {
        LinesFault::Read => EventFault::Read,
        LinesFault::TooLong => EventFault::LongLine,
    }
}
