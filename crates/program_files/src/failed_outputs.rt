//! Outputs that couldn't be written.
//!
//! Each of them is told, since the next thing to ask is which of them are whole.
use crate::faults::{Failure, OutputFile, SystemFault};
use arrayvec::ArrayVec;
use part_record::MOST_OUTPUTS;

/// An output that couldn't be written, and why, where the system told it.
#[derive(Clone, Copy, Debug, PartialEq, Eq)]
pub struct FailedOutput {
    pub output: OutputFile,
    pub fault: Option<SystemFault>,
}

impl FailedOutput {
    /// Why the program gives up for it.
    pub fn failure(self) -> Failure<'static> {
        match self.fault {
            Some(fault) => Failure::WriteFailed(self.output, fault),
            None => Failure::Write(self.output),
        }
    }
}

/// What stands in a list where nothing is noted yet.
impl Default for FailedOutput {
    fn default() -> FailedOutput {
        FailedOutput {
            output: OutputFile::Stdout,
            fault: None,
        }
    }
}

/// The outputs of a run or of a merge that couldn't be written: the ports' captures rising, the underlay's, the decision lines.
#[derive(Drop)]
pub struct FailedOutputs {
    files: ArrayVec<FailedOutput, MOST_OUTPUTS>,
}

impl FailedOutputs {
    /// None.
    pub fn new() -> FailedOutputs {
        FailedOutputs {
            files: ArrayVec::new(),
        }
    }

    /// Whether there are none.
    pub fn is_empty(&self) -> bool {
        self.files.is_empty()
    }

    /// All of them.
    pub fn as_slice(&self) -> &[FailedOutput] {
        self.files.as_slice()
    }

    /// Adds one, behind the others.
    pub(crate) fn note(&mut self, output: OutputFile, fault: Option<SystemFault>) {
        // There is room for as many as there are outputs.
        let _ = self.files.try_push(FailedOutput { output, fault });
    }

    /// The first of them.
    pub(crate) fn first(&self) -> Option<FailedOutput> {
        self.files.as_slice().first().copied()
    }

    /// This output, where it is one of them.
    pub(crate) fn find(&self, output: OutputFile) -> Option<FailedOutput> {
        for file in self.files.as_slice() {
            if file.output == output {
                return Some(*file);
            }
        }
        None
    }
}
