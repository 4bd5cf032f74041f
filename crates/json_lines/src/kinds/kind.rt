//! The kinds of texts.

/// A text that the program prints.
#[derive(Clone, Copy, Debug, PartialEq, Eq)]
pub enum Kind {
    /// Decision lines, what tests saw, the layers of packets, and tables among them.
    Events,
    /// The entries of tables.
    Tables,
    /// What was counted, and who talked to whom.
    Counts,
    /// What is in texts and captures.
    Looks,
    /// What was compared.
    Compared,
}
