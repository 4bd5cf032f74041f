//! Why the system refused a file.
ghost use Rattle.std.specs.Prelude.{◌≡◌, ◌≢◌, false, option_map, pos, true};
ghost use Rattle.std.specs.IoError.{raw_os_error};

use std::fmt;
use std::io::{Error, ErrorKind};

/// The system's number of the fault that the process has as many files open as it may (POSIX, `EMFILE`).
const TOO_MANY_OPEN: i32 = 24;

/// Why the system refused a file, or a read or a write of one, by its own number of that. It prints in a few words.
#[derive(Clone, Copy, Debug, PartialEq, Eq)]
pub struct SystemFault(i32);

impl SystemFault {
    /// What an error tells of the system. Nothing, where the system has no part in it.
    pub fn of(error: &Error) -> Option<SystemFault>
        ensures { option_map (λ fault. fault.0) result ≡ raw_os_error error.now }
    {
        match error.raw_os_error() {
            Some(number) => Some(SystemFault(number)),
            None => None,
        }
    }

    /// Whether the file, or a folder that its name has, isn't there.
    pub fn is_not_there(self) -> bool {
        self.error().kind() == ErrorKind::NotFound
    }

    /// Whether the process had as many files open as it may.
    pub fn is_of_open_files(self) -> bool
        ensures many { self.0 ≡ pos 24 → result ≡ true }
        ensures other { self.0 ≢ pos 24 → result ≡ false }
    {
        self.0 == TOO_MANY_OPEN
    }

    /// The error that the number stands for.
    fn error(self) -> Error {
        Error::from_raw_os_error(self.0)
    }
}

/// What is said of an error of this kind. Of the others the system's own words are.
fn words_of(kind: ErrorKind) -> Option<&'static str> {
    match kind {
        ErrorKind::NotFound => Some("no such file"),
        ErrorKind::PermissionDenied => Some("no rights"),
        ErrorKind::IsADirectory => Some("a folder"),
        ErrorKind::NotADirectory => Some("a part of the name is no folder"),
        ErrorKind::ReadOnlyFilesystem => Some("the file system is read-only"),
        ErrorKind::StorageFull => Some("no space left"),
        ErrorKind::QuotaExceeded => Some("the quota is used up"),
        ErrorKind::FileTooLarge => Some("the limit of a file's size is reached"),
        ErrorKind::BrokenPipe => Some("a closed pipe"),
        _ => None,
    }
}

impl fmt::Display for SystemFault {
    fn fmt<W: fmt::Write>(&self, f: &mut fmt::Formatter<W>) -> fmt::Result {
        if self.is_of_open_files() {
            return f.write_str("too many files are open");
        }
        let error = self.error();
        match words_of(error.kind()) {
            Some(words) => f.write_str(words),
            None => write!(f, "{error}"),
        }
    }
}
