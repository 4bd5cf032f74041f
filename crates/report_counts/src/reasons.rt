//! Why frames and packets are dropped or not sent.
ghost use Rattle.std.specs.Prelude.{◌≡◌, IfOk};
ghost use Rattle.report_counts.specs.Rows.{no_reasons, with_drop_for, with_unsent_for};

use crate::table::{Table, Tally};
use std::alloc::{AllocError, Global};

/// How often each reason was met, by its number from 1 to 40.
#[derive(Drop)]
pub(crate) struct Reasons {
    /// Events that were dropped, a row for each segment and for none.
    pub dropped: Table<41>,
    /// Outcomes that weren't sent, in such rows.
    pub unsent: Table<41>,
    /// Both, a row for each reason and in it a column for each span.
    pub spans: Table<64>,
    /// Both, in all spans and segments.
    pub all: Tally,
}

impl Reasons {
    /// None was met yet.
    pub(crate) fn new(alloc: Global) -> Result<Reasons, AllocError>
        ensures { IfOk result (λ reasons. reasons ≡ no_reasons) }
    {
        let dropped = Table::new(alloc, 4095)?;
        let unsent = Table::new(alloc, 4095)?;
        let spans = Table::new(alloc, 41)?;
        let all = Tally::new(alloc, 41)?;
        Ok(Reasons {
            dropped,
            unsent,
            spans,
            all,
        })
    }

    /// Counts an event that was dropped.
    pub(crate) fn add_drop(&mut self, segment: usize, reason: u8, span: usize)
        ensures { self.new ≡ with_drop_for segment reason span self.old }
    {
        self.dropped.add(segment, usize::from(reason), 1);
        self.spans.add(usize::from(reason), span, 1);
        self.all.add(usize::from(reason), 1);
    }

    /// Counts an outcome that wasn't sent.
    pub(crate) fn add_unsent(&mut self, segment: usize, reason: u8, span: usize)
        ensures { self.new ≡ with_unsent_for segment reason span self.old }
    {
        self.unsent.add(segment, usize::from(reason), 1);
        self.spans.add(usize::from(reason), span, 1);
        self.all.add(usize::from(reason), 1);
    }
}
