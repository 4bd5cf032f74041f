//! A mark in a folder that says that its outputs aren't a whole run's: one is under way, or didn't end.
//!
//! It stands there from before an output is emptied or a text of an earlier run removed until all is written. So a folder in
//! which a run was stopped, by a fault or from outside, is told from one with a run's outputs, whatever stands in them.
use crate::faults::{Failure, OutputFile};
use crate::outputs::path_of;
use std::alloc::{AllocError, Global};
use std::fs::{self, OpenOptions};
use std::path::PathBuf;
use std::rt::Files;

/// The mark of a folder, be it there or not.
#[derive(Drop)]
pub struct Mark {
    path: PathBuf,
}

impl Mark {
    /// That of this folder.
    pub fn of(alloc: Global, folder: &str) -> Result<Mark, AllocError> {
        let path = path_of(alloc, folder, OutputFile::Mark)?;
        Ok(Mark { path })
    }

    /// Whether it is there.
    pub fn is_set<R: Files>(&self, rt: &R) -> bool {
        fs::symlink_metadata(rt, self.path.as_path()).is_ok()
    }

    /// Sets it, where it isn't there: an empty file, for which also a full disk has room. What stands under its name isn't written.
    pub fn set<R: Files>(&self, rt: &R) -> Result<(), Failure<'static>> {
        if self.is_set(rt) {
            return Ok(());
        }
        let made = OpenOptions::new()
            .write(true)
            .create_new(true)
            .open(rt, self.path.as_path());
        match made {
            Ok(_) => Ok(()),
            Err(error) => Err(Failure::writing(OutputFile::Mark, &error)),
        }
    }

    /// Takes it away, behind all that was to be written.
    pub fn clear<R: Files>(&self, rt: &R) -> Result<(), Failure<'static>> {
        fs::remove_file(rt, self.path.as_path()).map_err(|error| Failure::writing(
            OutputFile::Mark,
            &error,
        ))
    }
}

/// Refuses a folder that has the mark.
pub fn see_ended<'a, R: Files + AllocGlobal>(rt: &R, folder: &'a str) -> Result<(), Failure<'a>> {
    let mark = Mark::of(rt.alloc(), folder)?;
    if mark.is_set(rt) {
        Err(Failure::Unended(folder))
    } else {
        Ok(())
    }
}
