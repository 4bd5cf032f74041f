//! What is printed on standard output.
use crate::faults::{Failure, OutputFile, is_lost};
use json_lines::kinds::{Kind, objects_of};
use std::io::{self, Write};

/// How lines are printed.
#[derive(Clone, Copy, Debug)]
pub enum Shown {
    /// As they are.
    Lines,
    /// Each of these as a JSON object.
    Objects(Kind),
}

impl Shown {
    /// Lines of this kind, as objects where that is asked for.
    pub fn of(json: bool, kind: Kind) -> Shown {
        if json {
            Shown::Objects(kind)
        } else {
            Shown::Lines
        }
    }
}

/// Prints a text on standard output.
pub fn print_text(rt: &impl Print, text: &[u8]) -> Result<(), Failure<'static>> {
    match io::writer(rt).write_all(text) {
        Ok(()) => Ok(()),
        Err(error) if is_lost(Err(error)) => Err(Failure::writing(OutputFile::Stdout, &error)),
        Err(_) => Ok(()),
    }
}

/// Prints the lines of a text on standard output, as they are or as objects.
pub fn print_shown<R: AllocGlobal + Print>(
    rt: &R,
    shown: Shown,
    text: &[u8],
) -> Result<(), Failure<'static>> {
    match shown {
        Shown::Lines => print_text(rt, text),
        Shown::Objects(kind) => {
            let objects = objects_of(rt.alloc(), kind, text)?;
            print_text(rt, objects.as_slice())
        }
    }
}
