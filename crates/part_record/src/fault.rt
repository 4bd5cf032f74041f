//! Why a text is none of a record's.
use thiserror::Error;

/// The first place at which a text is none of a record's.
#[derive(Clone, Copy, Debug, PartialEq, Eq, Error)]
pub enum PartRecordFault {
    /// The first line is neither `tep shard 4`, as most texts have it, nor `tep shard 5`.
    #[error("the first line is not 'tep shard 4'")]
    Head,
    /// The first line is that of a version before, of 1 to 3, which told nothing of a part's outputs or had weaker sums of them.
    #[error("it is of an older version, whose sums tell too little of the part's outputs: run the part again")]
    Older,
    /// The second line isn't `segments` and a list.
    #[error("the second line is not 'segments' and a list")]
    Segments,
    /// The third line isn't `settings` and a digest of 64 digits, in lower case.
    #[error("the third line is not 'settings' and a digest")]
    Settings,
    /// A line of `changes` doesn't stand behind that of `settings`, or has no digest.
    #[error("a line of 'changes' is out of place or has no digest")]
    Changes,
    /// Where the next capture is expected, of a port or of the underlay, there is no line of it with a digest.
    #[error("the line of a capture is missing, out of place or has no digest")]
    Capture,
    /// The first line is `tep shard 5`, and behind the captures there is no line of `both` and a time.
    #[error("behind the captures there is no line 'both' with a number, as version 5 has one")]
    Both,
    /// Behind that there is no line of `events` and their number.
    #[error("behind the captures there is no line 'events' with a number")]
    Events,
    /// Where the next output is expected, there is no line of it with four numbers.
    #[error("the line of an output is missing, out of place or has no four numbers")]
    Output,
    /// Something stands behind the line of the last output, and isn't what is told of the texts that the part left.
    #[error("something stands behind the line of the last output")]
    Behind,
}
