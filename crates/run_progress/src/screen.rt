//! Where progress is shown.
use std::io::IsTerminal;

/// What has a standard error, which may be a terminal.
pub trait Screen {
    /// Whether standard error is a terminal.
    fn is_terminal(&self) -> bool;
}

impl Screen for HostRuntime {
    fn is_terminal(&self) -> bool {
        self.stderr().is_terminal()
    }
}
