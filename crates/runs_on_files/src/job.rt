//! What is run on files.
use crate::texts::Texts;
use overlay_config::TimedChange;
use program_files::{Destination, Names};
use segment_set::SegmentSet;

/// A run on captures: what it reads, what of it is run, and where that is written.
#[derive(Clone, Copy)]
pub struct Job<'j, 'a> {
    pub names: Names<'j, 'a>,
    pub texts: &'j Texts,
    /// The changes that their text means, where it was read before, as [`Texts::changes_read`] answers them: then it isn't read
    /// again.
    pub changes: Option<&'j [TimedChange]>,
    /// Where it is written. Where no folder is named nothing is made or written.
    pub folder: Option<Destination<'j>>,
    pub scope: Scope<'j>,
}

/// Which segments of a run are run.
#[derive(Clone, Copy)]
pub enum Scope<'s> {
    /// All.
    Whole,
    /// Some, as a part.
    Part(ListedPart<'s>),
}

/// A part of a run, as it was asked for.
#[derive(Clone, Copy)]
pub struct ListedPart<'s> {
    /// The list that names its segments.
    pub list: &'s str,
    /// These segments.
    pub segments: &'s SegmentSet,
    /// How long behind its frame what the switch itself sent may come that the sieve leaves out, in nanoseconds, where it leaves
    /// that out.
    pub both: Option<u64>,
}

impl Job<'_, '_> {
    /// Whether the digests of its captures are taken as they are read: of a part that is written and to which none are lent.
    pub(crate) fn takes_digests(self) -> bool {
        self.folder.is_some() && self.scope.is_part() && self.names.digests.is_none()
    }
}

impl Scope<'_> {
    /// Whether it is a part.
    pub(crate) fn is_part(self) -> bool {
        match self {
            Scope::Whole => false,
            Scope::Part(_) => true,
        }
    }
}
