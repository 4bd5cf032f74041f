//! What came from each source.
ghost use Rattle.std.specs.Prelude.{◌≡◌, IfOk};
ghost use Rattle.report_counts.specs.Rows.{no_sources, with_event_from};

use crate::table::{Table, Tally};
use std::alloc::{AllocError, Global};

/// Events by where they came from: 0 for the changes, the number of a port, 256 for the underlay.
#[derive(Drop)]
pub(crate) struct Sources {
    pub events: Tally,
    /// Those in each span.
    pub spans: Table<64>,
}

impl Sources {
    /// Nothing came yet.
    pub(crate) fn new(alloc: Global) -> Result<Sources, AllocError>
        ensures { IfOk result (λ sources. sources ≡ no_sources) }
    {
        let events = Tally::new(alloc, 257)?;
        let spans = Table::new(alloc, 257)?;
        Ok(Sources { events, spans })
    }

    /// Counts an event.
    pub(crate) fn add(&mut self, source: usize, span: usize)
        ensures { self.new ≡ with_event_from source span self.old }
    {
        self.events.add(source, 1);
        self.spans.add(source, span, 1);
    }
}
