//! Account of what a run leaves out of captures that hold both directions: the list of it, the records of it that are asked for by
//! name, and how many stand where the run sent nothing.
ghost use Rattle.std.specs.Prelude.{⊤};

use crate::run::AskedJob;
use crate::side_file::{SideOutput, finish_side, side_output};
use both_ways::{Audit, LeftOut, Placed};
use endpoint_core::{Endpoint, Outlets};
use pcap::stream::Output;
use program_files::Failure;
use run_reports::{foreseen, name_in};
use std::alloc::{AllocError, Global};
use std::fmt::Write;
use std::rt::Files;
use timeline::{Event, Source, Tap};

/// A record that is asked for by name.
#[derive(Clone, Copy)]
struct AskedRecord {
    /// Where it was captured: 0 for the underlay, and the number of a local port.
    place: u8,
    /// Its number in its capture.
    number: u64,
    /// Which of the names asks for it.
    name: usize,
    /// Whether it was left out.
    is_met: bool,
}

/// The list of what is left out.
#[derive(Drop)]
struct EchoList<'n, R: Files + AllocGlobal + Print> {
    output: SideOutput<'n, 'n, 'n, R>,
    /// The line that was written last.
    line: String,
    /// Where the run put the latest frames.
    placed: Placed,
    /// Where it puts the next one.
    places: Outlets,
    /// Whether a line couldn't be written, and whether memory for one was refused.
    is_failed: bool,
    is_lost: bool,
}

/// Account of what a run leaves out.
#[derive(Drop)]
pub(crate) struct RunAudit<'n, R: Files + AllocGlobal + Print> {
    list: Option<EchoList<'n, R>>,
    records: Vec<AskedRecord>,
    /// What is told of those that were left out.
    told: String,
    is_lost: bool,
}

impl<'n, R: Files + AllocGlobal + Print> RunAudit<'n, R> {
    /// Account of nothing yet, for what is asked of a run.
    pub(crate) fn new(
        rt: &'n R,
        job: AskedJob<'n, 'n, 'n>,
    ) -> Result<RunAudit<'n, R>, Failure<'static>> {
        let list = match list_of_run(rt, job) {
            Ok(list) => list,
            Err(failure) => return Err(failure),
        };
        let records = records_asked(rt.alloc(), job.asked.why)?;
        Ok(RunAudit {
            list,
            records,
            told: String::new(rt.alloc()),
            is_lost: false,
        })
    }

    /// Whether the record was left out that the name at this place asks for.
    pub(crate) fn is_named(&self, name: usize) -> bool {
        self.records.iter().any(|k| k.is_met && k.name == name)
    }

    /// What is told of those that are asked for by name. `AllocError`: memory was refused meanwhile.
    pub(crate) fn told(&self) -> Result<&[u8], AllocError> {
        if self.is_lost {
            return Err(AllocError);
        }
        Ok(self.told.as_bytes())
    }

    /// Hands on what is held of the list of a run that is done, whose file is made where nothing was left out. It answers where the
    /// run put frames, where there is a list.
    pub(crate) fn finish(self) -> Result<Option<Placed>, Failure<'static>> {
        let RunAudit { list, .. } = self;
        match list {
            Some(list) => list.finish(),
            None => Ok(None),
        }
    }

    /// The same of a run that stopped.
    pub(crate) fn leave(self) {
        let RunAudit { list, .. } = self;
        if let Some(list) = list {
            list.leave();
        }
    }
}

impl<R: Files + AllocGlobal + Print> Audit for RunAudit<'_, R> {
    ghost hears = { λ old left new. ⊤ };

    fn hear_input(&mut self, endpoint: &Endpoint, event: &Event) {
        if let Some(list) = &mut self.list {
            list.note(endpoint, event);
        }
    }

    fn hear_left_out(&mut self, left: &LeftOut) {
        if let Some(list) = &mut self.list {
            list.put(left);
        }
        if mark(self.records.as_mut_slice(), left)
            && write!(self.told, "  left out: {left}\n").is_err()
        {
            self.is_lost = true;
        }
    }
}

impl<R: Files + AllocGlobal + Print> EchoList<'_, R> {
    /// Keeps where the run puts the frame of an event.
    fn note(&mut self, endpoint: &Endpoint, event: &Event) {
        if foreseen(endpoint, event, &mut self.places).is_some() {
            self.placed.put(event, self.places.as_slice());
        }
    }

    /// Writes the line of a record that is left out, and counts it where the run sent nothing.
    fn put(&mut self, left: &LeftOut) {
        self.placed.meet(left);
        if self.is_failed || self.is_lost {
            return;
        }
        self.line.clear();
        if write!(self.line, "{left}\n").is_err() {
            self.is_lost = true;
            return;
        }
        self.is_failed = self.output.write_all(self.line.as_bytes()).is_err();
    }

    /// Hands on what is held.
    fn finish(self) -> Result<Option<Placed>, Failure<'static>> {
        let EchoList {
            output,
            placed,
            is_failed,
            is_lost,
            ..
        } = self;
        if is_lost {
            return Err(Failure::from(AllocError));
        }
        match finish_side(output, is_failed) {
            Ok(()) => Ok(Some(placed)),
            Err(failure) => Err(failure),
        }
    }

    /// The same of a run that stopped.
    fn leave(self) {
        let EchoList { output, .. } = self;
        let mut output = output;
        let _ = output.finish();
    }
}

/// The list of what is left out, where one is asked for of a run.
fn list_of_run<'n, R: Files + AllocGlobal + Print>(
    rt: &'n R,
    job: AskedJob<'n, 'n, 'n>,
) -> Result<Option<EchoList<'n, R>>, Failure<'static>> {
    let Some(name) = job.asked.list else {
        return Ok(None);
    };
    let output = match side_output(rt, job, name, job.asked.pcapng) {
        Ok(output) => output,
        Err(failure) => return Err(failure),
    };
    let placed = Placed::new(rt.alloc())?;
    Ok(Some(EchoList {
        output,
        line: String::new(rt.alloc()),
        placed,
        places: Outlets::new(),
        is_failed: false,
        is_lost: false,
    }))
}

/// The records that these names ask for.
fn records_asked(alloc: Global, names: &[&str]) -> Result<Vec<AskedRecord>, AllocError> {
    let mut records = Vec::new(alloc);
    for name in 0..names.len() {
        if let Some(asked) = name_in(names[name].as_bytes()) {
            if let Some(Source::Tap(tap)) = asked.source {
                records.push(AskedRecord {
                    place: place_of(tap),
                    number: asked.number,
                    name,
                    is_met: false,
                })?;
            }
        }
    }
    Ok(records)
}

/// The number of a place.
fn place_of(tap: Tap) -> u8 {
    match tap {
        Tap::Port(port) => port,
        Tap::Underlay => 0,
    }
}

/// Marks a record that is left out, and answers whether it is asked for.
fn mark(records: &mut [AskedRecord], left: &LeftOut) -> bool {
    let mut is_asked = false;
    for k in records.iter_mut() {
        if k.place == left.place && k.number == left.number {
            k.is_met = true;
            is_asked = true;
        }
    }
    is_asked
}
