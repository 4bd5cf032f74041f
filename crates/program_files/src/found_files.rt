//! Files that were found, by which another name or a link of one of them is told.
//!
//! What the system tells of a file becomes a [`Place`], and what is decided of places is proved.
ghost use Rattle.std.specs.Prelude.{◌≡◌, ◌<◌, ◌++◌, ◌∷◌, [], IfSome, OnOk, length};
ghost use Rattle.program_files.specs.Found.{first_at, is_one, what_at};

use std::alloc::{AllocError, Global};
use std::fs::{self, Metadata};
use std::os::unix::fs::{FileTypeExt, MetadataExt};
use std::path::Path;
use std::rt::Files;

/// Where a file stands: its device, and its number there.
#[derive(Clone, Copy, Debug, PartialEq, Eq)]
pub struct Place {
    pub device: u64,
    pub number: u64,
}

impl Place {
    /// Where a file stands that isn't to be written for another one. A character device has no such place: who writes into it
    /// takes nothing from who reads it, nor from who writes into it too.
    pub fn of(found: &Metadata) -> Option<Place> {
        if found.file_type().is_char_device() {
            None
        } else {
            Some(Place {
                device: found.dev(),
                number: found.ino(),
            })
        }
    }

    /// Whether both are one.
    fn is(self, other: Place) -> bool
        ensures { result ≡ is_one self other }
    {
        self.device == other.device && self.number == other.number
    }
}

/// A file that was found, and what it is.
#[derive(Clone, Copy, Debug)]
pub struct Found<T> {
    pub place: Place,
    pub what: T,
}

/// Some files that stand, each with what it is, told by device and inode, so that another name or a link is found too.
#[derive(Drop)]
pub struct FoundFiles<T: Copy + Drop> {
    files: Vec<Found<T>>,
}

impl<T: Copy + Drop> FoundFiles<T> {
    /// None.
    pub fn none(alloc: Global) -> FoundFiles<T>
        ensures { result.files.items ≡ [] }
    {
        FoundFiles {
            files: Vec::new(alloc),
        }
    }

    /// Adds a file behind the others.
    pub fn add(&mut self, place: Place, what: T) -> Result<(), AllocError>
        ensures { OnOk result (self.new.files.items ≡ self.old.files.items ++ (record { place = place; what = what } ∷ [])) }
    {
        self.files.push(Found { place, what })?;
        Ok(())
    }

    /// What the first of them is that stands at this place; none where none does.
    pub fn at(&self, place: Place) -> Option<T>
        ensures { result ≡ what_at place self.now.files.items }
    {
        match first_at(self.files.as_slice(), place) {
            Some(number) => Some(self.files[number].what),
            None => None,
        }
    }

    /// Adds the file that a path leads to, where there is one.
    pub fn note<R: Files>(&mut self, rt: &R, path: Path<'_>, what: T) -> Result<(), AllocError> {
        match place_of(rt, path) {
            Some(place) => self.add(place, what),
            None => Ok(()),
        }
    }

    /// What the first of them is that a path leads to.
    pub fn at_path<R: Files>(&self, rt: &R, path: Path<'_>) -> Option<T> {
        match place_of(rt, path) {
            Some(place) => self.at(place),
            None => None,
        }
    }
}

/// The number of the first of some files that stands at this place.
fn first_at<T: Copy + Drop>(files: &[Found<T>], place: Place) -> Option<usize>
    ensures found { result ≡ first_at place files.now }
    ensures bound { IfSome result (λ number. number < length files.now) }
{
    files.iter().position(|file| file.place.is(place))
}

/// Where the file stands that a path leads to, where there is one.
pub fn place_of<R: Files>(rt: &R, path: Path<'_>) -> Option<Place> {
    match fs::metadata(rt, path) {
        Ok(found) => Place::of(&found),
        Err(_) => None,
    }
}
