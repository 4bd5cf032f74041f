//! Whether a text came to standard output.
//!
//! A reader of standard output that goes away has had enough: no fault. Where that of an output file goes away, as of a FIFO,
//! it is one.
ghost use Rattle.std.specs.Prelude.{◌≡◌, ◌≢◌, IfErr, OnOk, true, false};
ghost use Rattle.std.specs.IoError.{error_kind};
ghost use Rattle.std.specs.declared.io.ErrorKind.TheVariants.{BrokenPipe};

use std::io::{self, ErrorKind};

/// Whether a text didn't come to standard output. Where its reader went away, it had enough of it, and nothing is lost.
pub fn is_lost(printed: io::Result<()>) -> bool
    ensures whole { OnOk printed (result ≡ false) }
    ensures enough { IfErr printed (λ error. error_kind error ≡ BrokenPipe → result ≡ false) }
    ensures lost { IfErr printed (λ error. error_kind error ≢ BrokenPipe → result ≡ true) }
{
    match printed {
        Ok(()) => false,
        Err(error) => error.kind() != ErrorKind::BrokenPipe,
    }
}
