//! What is counted of decision lines.
ghost use Rattle.std.specs.Prelude.{◌≡◌, IfOk};
ghost use Rattle.report_counts.specs.Counting.{counted, drop_of, no_counts, one_more, with_answer, with_coming, with_drop_at};
ghost use Rattle.report_counts.specs.Counting.{with_cut, with_event, with_fate, with_leaving, with_outcomes, with_sent, with_unsent};
ghost use Rattle.report_counts.specs.Outcomes.{told};

use crate::drops::FirstDrop;
use crate::firsts::Firsts;
use crate::line::{EventLine, Outcome, ReportLine};
use crate::mark::{Mark, Stretch, source_number};
use crate::outcomes::{Leaving, Outcomes, Passage};
use crate::outlets::Outlets;
use crate::pairs::Pairs;
use crate::reasons::Reasons;
use crate::segments::Segments;
use crate::sources::Sources;
use crate::table::Tally;
use std::alloc::{AllocError, Global};
use timeline::{Source, Tap};

/// What is counted of the decision lines of a run. Each count ends at 2^64 - 1. Only [`ReportCounts::new`] asks for memory, for
/// about 15 MiB.
#[derive(Drop)]
pub struct ReportCounts {
    pub(crate) stretch: Stretch,
    /// All events.
    pub(crate) events: u64,
    /// Changes that were made.
    pub(crate) done: u64,
    /// Changes that were refused, by their causes.
    pub(crate) refused: Tally,
    /// Outcomes that left at places.
    pub(crate) sent: u64,
    /// Outcomes that didn't, with a reason.
    pub(crate) unsent: u64,
    /// Events that were dropped.
    pub(crate) dropped: u64,
    pub(crate) sources: Sources,
    pub(crate) outlets: Outlets,
    pub(crate) segments: Segments,
    pub(crate) reasons: Reasons,
    pub(crate) pairs: Pairs,
    /// The first event of each reason, by its number.
    pub(crate) first_drops: Firsts<FirstDrop>,
    /// How many whole records each cut capture has, by the number of its source.
    pub(crate) cuts: Firsts<u64>,
}

impl ReportCounts {
    /// Nothing is counted yet. The lines that will be are from the moment `first` to the moment `last`, in nanoseconds; they are
    /// cut into 64 spans, all of one width, which is a 64th of what lies between, rounded down, and one more. A line of another
    /// moment behind the last span is counted in no span, and one before the first moment in the first span.
    pub fn new(alloc: Global, first: u64, last: u64) -> Result<ReportCounts, AllocError>
        ensures { IfOk result (λ counts. counts ≡ no_counts first last) }
    {
        let refused = Tally::new(alloc, 256)?;
        let sources = Sources::new(alloc)?;
        let outlets = Outlets::new(alloc)?;
        let segments = Segments::new(alloc)?;
        let reasons = Reasons::new(alloc)?;
        let pairs = Pairs::new(alloc)?;
        let first_drops = Firsts::new(alloc, 41)?;
        let cuts = Firsts::new(alloc, 257)?;
        Ok(ReportCounts {
            stretch: Stretch { first, last },
            events: 0,
            done: 0,
            refused,
            sent: 0,
            unsent: 0,
            dropped: 0,
            sources,
            outlets,
            segments,
            reasons,
            pairs,
            first_drops,
            cuts,
        })
    }

    /// Counts a line, or notes that a capture is cut.
    pub fn count(&mut self, line: &ReportLine<'_>)
        ensures { self.new ≡ counted line.now self.old }
    {
        match line {
            ReportLine::Event(event) => self.count_event(event),
            ReportLine::Cut { tap, records } => self.count_cut(*tap, *records),
        }
    }

    /// Notes that a capture is cut behind so many whole records.
    fn count_cut(&mut self, tap: Tap, records: u64)
        ensures { self.new ≡ with_cut tap records self.old }
    {
        self.cuts.keep(source_number(Source::Tap(tap)), records);
    }

    /// Counts an event.
    fn count_event(&mut self, event: &EventLine<'_>)
        ensures { self.new ≡ with_event event.now self.old }
    {
        let mark = self.stretch.mark(event);
        self.count_coming(mark);
        self.count_answer(mark, event);
    }

    /// Counts that an event came.
    #[tactic(auto, unfolding(crate::specs::Counting::with_coming))]
    fn count_coming(&mut self, mark: Mark)
        ensures { self.new ≡ with_coming mark self.old }
    {
        self.events = one_more(self.events);
        self.sources.add(mark.source, mark.span);
        self.segments.add_event(mark.segment, mark.span);
    }

    /// Counts what came of an event.
    fn count_answer(&mut self, mark: Mark, event: &EventLine<'_>)
        ensures { self.new ≡ with_answer mark event.now self.old }
    {
        match &event.result {
            Outcome::Sent(outcomes) => self.count_outcomes(mark, event, outcomes),
            Outcome::Dropped { reason } => self.count_drop(mark, event, *reason),
            Outcome::Done => self.done = one_more(self.done),
            Outcome::Refused { cause } => self.refused.add(usize::from(*cause), 1),
        }
    }

    /// Counts an event that was dropped for a reason.
    #[tactic(auto, unfolding(crate::specs::Counting::with_drop_at))]
    fn count_drop(&mut self, mark: Mark, event: &EventLine<'_>, reason: u8)
        ensures { self.new ≡ with_drop_at mark event.now reason self.old }
    {
        self.dropped = one_more(self.dropped);
        self.segments.add_drop(mark.segment, mark.span);
        self.reasons.add_drop(mark.segment, reason, mark.span);
        self.first_drops
            .keep(usize::from(reason), drop_of(event, reason));
    }

    /// Counts what came of a frame at each of its places.
    fn count_outcomes(&mut self, mark: Mark, event: &EventLine<'_>, outcomes: &Outcomes<'_>)
        ensures { self.new ≡ with_outcomes mark event.now outcomes.now self.old }
    {
        let mut left = outcomes.again();
        while let Some(leaving) = left.next_outcome() {
            self.count_leaving(mark, event, &leaving);
        }
    }

    /// Counts what came of a frame at a place.
    fn count_leaving(&mut self, mark: Mark, event: &EventLine<'_>, leaving: &Leaving<'_>)
        ensures { self.new ≡ with_leaving mark event.now (told leaving.now) self.old }
    {
        let outlet = self.outlets.add(leaving.place, leaving.passage, mark.span);
        self.count_passage(mark, event, outlet, leaving.passage);
    }

    /// Counts what came of a frame at an outlet.
    fn count_passage(&mut self, mark: Mark, event: &EventLine<'_>, outlet: usize, passage: Passage)
        ensures { self.new ≡ with_fate mark event.now outlet passage self.old }
    {
        match passage {
            Passage::Left { octets } => self.count_sent(mark, outlet, octets),
            Passage::Unsent { reason } => self.count_unsent(mark, event, reason),
        }
    }

    /// Counts a frame that didn't leave, for a reason.
    #[tactic(auto, unfolding(crate::specs::Counting::with_unsent))]
    fn count_unsent(&mut self, mark: Mark, event: &EventLine<'_>, reason: u8)
        ensures { self.new ≡ with_unsent mark event.now reason self.old }
    {
        self.unsent = one_more(self.unsent);
        self.reasons.add_unsent(mark.segment, reason, mark.span);
        self.first_drops
            .keep(usize::from(reason), drop_of(event, reason));
    }

    /// Counts a frame that left at an outlet.
    #[tactic(auto, unfolding(crate::specs::Counting::with_sent))]
    fn count_sent(&mut self, mark: Mark, outlet: usize, octets: u64)
        ensures { self.new ≡ with_sent mark outlet octets self.old }
    {
        self.sent = one_more(self.sent);
        self.segments.sent.add(mark.segment, 1);
        self.pairs.add(mark.source, outlet, octets);
    }
}

/// What is told of the first event for which a reason was met.
fn drop_of(event: &EventLine<'_>, reason: u8) -> FirstDrop
    ensures { result ≡ drop_of event.now reason }
{
    FirstDrop {
        event: event.event,
        moment: event.moment,
        source: event.source,
        number: event.number,
        segment: event.segment,
        reason,
    }
}

/// One more of a count.
fn one_more(count: u64) -> u64
    ensures { result ≡ one_more count }
{
    count.saturating_add(1)
}
