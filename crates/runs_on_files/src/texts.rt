//! The texts of a run.
ghost use Rattle.std.specs.Prelude.{◌≡◌, [], Ok, IfOk, IfSome, None};
ghost use Rattle.overlay_config.specs.Change.{IsRising, changes_in};
ghost use Rattle.overlay.specs.Rules.{EachBehind};

use capture_run::{RunFault, of_changes};
use overlay_config::{TimedChange, changes_of};
use program_files::{Failure, Names, read_file, read_if_given};
use std::alloc::{AllocError, Global};
use std::rt::Files;

/// The texts of a run.
#[derive(Drop)]
pub struct Texts {
    pub settings: Vec<u8>,
    /// Empty, where there are none.
    pub changes: Vec<u8>,
}

impl Texts {
    /// Reads them.
    pub fn read<'a, R: Files + AllocGlobal>(
        rt: &R,
        names: Names<'_, 'a>,
    ) -> Result<Texts, Failure<'a>>
        ensures settings { IfOk result (λ texts. (file : R.File)
            × IfSome (R.File.remaining file) (λ octets. texts.settings.items ≡ octets)) }
        ensures changes { IfOk result (λ texts. IfSome names.entry.changes (λ _. (file : R.File)
            × IfSome (R.File.remaining file) (λ octets. texts.changes.items ≡ octets))) }
        ensures unnamed { IfOk result (λ texts. names.entry.changes ≡ None → texts.changes.items ≡ []) }
    {
        let settings = read_file(rt, names.settings)?;
        let changes = read_if_given(rt, names.changes)?;
        Ok(Texts { settings, changes })
    }

    /// The changes that their text means, for [`run_on_files`](crate::run_on_files). None of a text that is refused: the run
    /// tells why, behind the settings' own fault.
    pub fn changes_read(&self, alloc: Global) -> Result<Option<Vec<TimedChange>>, AllocError>
        ensures told { IfOk result (λ told. IfSome told (λ changes. changes_in self.now.changes.items ≡ Ok changes.items)) }
        ensures rising { IfOk result (λ told. IfSome told (λ changes. EachBehind IsRising [] changes.items)) }
    {
        match changes_of(alloc, self.changes.as_slice()) {
            Ok(changes) => Ok(Some(changes)),
            Err(fault) => match of_changes(fault) {
                RunFault::OutOfMemory => Err(AllocError),
                _ => Ok(None),
            },
        }
    }
}
