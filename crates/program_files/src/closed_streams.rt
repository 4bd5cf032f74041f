//! Standard streams that are closed.
//!
//! The system gives a file that is opened the lowest number that is free, and who closes a standard stream leaves its number
//! free: so what is printed would go into an output, and what is read from standard input would be a capture's. A file is
//! opened in the place of each, by which nothing can be read or printed, as by a closed stream.
use std::fs::{self, OpenOptions};
use std::rt::Files;

/// A file that has no octets, and takes any.
const NOWHERE: &str = "/dev/null";

/// What stands in the place of standard streams that are closed.
#[derive(Drop)]
pub struct ClosedStreams<F: Drop> {
    input: Option<F>,
    output: Option<F>,
    errors: Option<F>,
}

impl<F: Drop> ClosedStreams<F> {
    /// Fills the places of those that are closed, in the order of their numbers.
    pub fn fill<R: Files<File = F>>(rt: &R) -> ClosedStreams<F> {
        let input = fill(rt, "/dev/stdin", Use::Written);
        let output = fill(rt, "/dev/stdout", Use::Read);
        let errors = fill(rt, "/dev/stderr", Use::Read);
        ClosedStreams {
            input,
            output,
            errors,
        }
    }
}

/// What a file is opened for in place of a standard stream: for what nobody does with that.
#[derive(Clone, Copy)]
enum Use {
    Read,
    Written,
}

/// A file in the place of a standard stream, if it is closed.
fn fill<R: Files>(rt: &R, stream: &str, used: Use) -> Option<R::File> {
    if fs::metadata(rt, stream).is_ok() {
        return None;
    }
    let mut options = OpenOptions::new();
    match used {
        Use::Read => options.read(true),
        Use::Written => options.write(true),
    };
    options.open(rt, NOWHERE).ok()
}
