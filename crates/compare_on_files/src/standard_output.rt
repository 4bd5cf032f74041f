//! Standard output, where comparisons are told.
ghost use Rattle.std.specs.Prelude.{◌≡◌, ℕ, List, IfOk, None, Ok};
ghost use Rattle.compare_on_files.specs.Asking.{IsEventOf, decisions_fault};
ghost use Rattle.compare_on_files.specs.Finding.{IsFound, StandsIn};

use crate::events::{EventFault, RecordEvents};
use compare_reports::Printer;
use program_files::{
    DecisionsFault, Failure, OutputFile, PartFile, Shown, WorkedFailure, open_part_file,
    print_shown,
};
use std::alloc::Global;
use std::io::Read;
use std::rt::Files;
use timeline::Tap;

/// Standard output, and the events of the records of a place, where a run wrote them.
#[derive(Drop)]
pub(crate) struct StandardOutput<'r, 'a, R, F: Read + Drop> {
    rt: &'r R,
    shown: Shown,
    worked: Option<WorkedEvents<'a, F>>,
}

/// The events of the records of a place, by the decision lines in a folder.
#[derive(Drop)]
struct WorkedEvents<'a, F: Read + Drop> {
    folder: &'a str,
    tap: Tap,
    events: RecordEvents<PartFile<F>>,
}

impl<'r, 'a, R, F: Read + Drop> StandardOutput<'r, 'a, R, F> {
    /// That of records of no run.
    pub(crate) fn new(rt: &'r R, shown: Shown) -> StandardOutput<'r, 'a, R, F>
        ensures { result.worked ≡ None }
    {
        StandardOutput {
            rt,
            shown,
            worked: None,
        }
    }
}

/// Standard output, and what the run that wrote into this folder tells of a place.
pub(crate) fn open_output<'r, 'a, R: Files + AllocGlobal>(
    rt: &'r R,
    shown: Shown,
    folder: &'a str,
    tap: Tap,
) -> Result<StandardOutput<'r, 'a, R, R::File>, Failure<'a>> {
    let input = match open_part_file(rt, folder, OutputFile::Decisions) {
        Ok(input) => input,
        Err(failure) => return Err(failure),
    };
    let events = RecordEvents::new(rt.alloc(), input, tap)?;
    let worked = Some(WorkedEvents {
        folder,
        tap,
        events,
    });
    Ok(StandardOutput { rt, shown, worked })
}

impl<'r, 'a, R: AllocGlobal + Print, F: Read + Drop> Printer for StandardOutput<'r, 'a, R, F> {
    type Fault = Failure<'a>;

    ghost prints = { λ old text new. new ≡ old };

    ghost finds = { λ old number event new. IsEventOf old.worked number event new.worked };

    fn alloc(&self) -> Global {
        self.rt.alloc()
    }

    fn print(&mut self, text: &[u8]) -> Result<(), Failure<'a>> {
        print_shown(self.rt, self.shown, text)
    }

    fn event_of(&mut self, number: u64) -> Result<Option<u64>, Failure<'a>> {
        let Some(worked) = &mut self.worked else {
            return Ok(None);
        };
        match worked.event_of(number) {
            Ok(event) => Ok(Some(event)),
            Err(failure) => Err(failure),
        }
    }
}

impl<'a, F: Read + Drop> WorkedEvents<'a, F> {
    /// The number of the event of a record.
    fn event_of(&mut self, number: u64) -> Result<u64, Failure<'a>>
        ensures { IfOk result (λ event. (text : List ℕ) → StandsIn text self.old.events
            → IsFound text self.old.events number (Ok event) × StandsIn text self.new.events) }
    {
        let fault = match self.events.event_of(number) {
            Ok(event) => return Ok(event),
            Err(fault) => fault,
        };
        match told_fault(fault) {
            Some(fault) => Err(Failure::Worked(
                self.folder,
                WorkedFailure::Decisions(self.tap, fault),
            )),
            None => Err(Failure::Read(self.folder)),
        }
    }
}

/// What is told of a fault of decision lines; nothing of a read that failed. Records are asked for in rising order, so none is passed.
fn told_fault(fault: EventFault) -> Option<DecisionsFault>
    ensures { result ≡ decisions_fault fault }
{
    match fault {
        EventFault::Read => None,
        EventFault::LongLine => Some(DecisionsFault::LongLine),
        EventFault::Line(fault) => Some(DecisionsFault::Line(fault)),
        EventFault::Falls(number) => Some(DecisionsFault::Falls(number)),
        EventFault::Few | EventFault::Passed => Some(DecisionsFault::Few),
    }
}
