//! What is told first.
ghost use Rattle.std.specs.Prelude.{◌≡◌, ◌%◌, Some, slice_index};
ghost use Rattle.report_page.specs.Facts.{dropped_fact, fact_text, facts_text, moment_fact, refused_all};

use crate::moment::Moment;
use crate::path::height_of;
use crate::series::{Numbers, together};
use report_counts::ReportCounts;
use std::fmt;

/// A fact: its label and its number.
#[derive(Clone, Copy)]
struct Fact(&'static str, u64);

impl fmt::Display for Fact {
    ghost output = { λ fact. Some (fact_text fact.0.now fact.1) };

    #[tactic(auto, unfolding(crate::specs::Facts::fact_text))]
    fn fmt<W: fmt::Write>(&self, f: &mut fmt::Formatter<W>) -> fmt::Result {
        let label = self.0;
        let number = self.1;
        write!(f, "<div><dt>{label}</dt><dd>{number}</dd></div>\n")
    }
}

/// A moment behind its label, to the second and in nanoseconds.
#[derive(Clone, Copy)]
struct MomentFact(&'static str, u64);

impl fmt::Display for MomentFact {
    ghost output = { λ fact. Some (moment_fact fact.0.now fact.1) };

    #[tactic(auto, unfolding(crate::specs::Facts::moment_fact))]
    fn fmt<W: fmt::Write>(&self, f: &mut fmt::Formatter<W>) -> fmt::Result {
        let label = self.0;
        let date = Moment(self.1);
        let moment = self.1;
        write!(
            f,
            "<div><dt>{label}</dt><dd>{date}<small>{moment} ns</small></dd></div>\n"
        )
    }
}

/// How many were dropped, and which share of what came.
#[derive(Clone, Copy)]
struct DroppedFact {
    dropped: u64,
    came: u64,
}

impl fmt::Display for DroppedFact {
    ghost output = { λ fact. Some (dropped_fact fact.dropped fact.came) };

    #[tactic(auto, unfolding(crate::specs::Facts::dropped_fact))]
    fn fmt<W: fmt::Write>(&self, f: &mut fmt::Formatter<W>) -> fmt::Result {
        let dropped = self.dropped;
        let came = self.came;
        let whole = height_of(came, dropped) / 10;
        let tenth = height_of(came, dropped) % 10;
        write!(
            f,
            "<div><dt>Dropped</dt><dd>{dropped}<small>{whole}.{tenth} % of {came} that came</small></dd></div>\n"
        )
    }
}

/// How many changes were refused for each cause.
#[derive(Clone, Copy)]
struct Refused<'a>(&'a ReportCounts);

impl<'a> Numbers for Refused<'a> {
    ghost number = { λ refused cause. slice_index refused.0.now.refused (cause % 256) };

    fn number(&self, cause: u16) -> u64 {
        self.0.refused((cause % 256) as u8)
    }
}

/// How many changes were refused, whatever the causes.
fn refused_all(counts: &ReportCounts) -> u64
    ensures { result ≡ refused_all counts.now }
{
    together(&Refused(counts), 256)
}

/// All of it.
#[derive(Clone, Copy)]
pub(crate) struct Facts<'a>(pub &'a ReportCounts);

impl<'a> fmt::Display for Facts<'a> {
    ghost output = { λ facts. Some (facts_text facts.0.now) };

    #[tactic(auto, unfolding(crate::specs::Facts::facts_text))]
    fn fmt<W: fmt::Write>(&self, f: &mut fmt::Formatter<W>) -> fmt::Result {
        let counts = self.0;
        let events = Fact("Events", counts.events());
        let first = MomentFact("First moment", counts.first());
        let last = MomentFact("Last moment", counts.last());
        let sent = Fact("Frames and packets that left", counts.sent());
        let unsent = Fact("Not sent at an outlet", counts.unsent());
        let dropped = DroppedFact {
            dropped: counts.dropped_all(),
            came: counts.events().saturating_sub(counts.came(0)),
        };
        let done = Fact("Changes done", counts.done());
        let refused = Fact("Changes refused", refused_all(counts));
        write!(
            f,
            "<dl>\n{events}{sent}{dropped}{unsent}{done}{refused}{first}{last}</dl>\n"
        )
    }
}
