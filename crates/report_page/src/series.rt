//! Numbers of which there is one for each span.
ghost use Rattle.std.specs.Prelude.{◌≡◌, ◌<◌, ℕ};
ghost use Rattle.report_page.specs.Series.{greatest, is_port, left_where, number_at, part_at, parts_of, sum_of, together};

use report_counts::ReportCounts;

/// So many spans has a run.
pub(crate) const SPANS: u16 = 64;

/// Numbers in a row.
pub(crate) trait Numbers {
    /// The number of a place.
    ghost number: { Self → ℕ → ℕ };

    /// The number of a place.
    fn number(&self, place: u16) -> u64
        ensures { result ≡ number self.now place };
}

/// Two numbers, summed, up to the greatest number.
pub(crate) fn sum_of(m: u64, n: u64) -> u64
    ensures { result ≡ sum_of m n }
{
    m.saturating_add(n)
}

/// So many numbers, summed, up to the greatest number.
#[tactic(auto, using(crate::proofs::Numbers::together_more), unfolding(crate::specs::Series::together))]
pub(crate) fn together<N: Numbers>(numbers: &N, count: u16) -> u64
    ensures { result ≡ together (N.number numbers.now) count }
{
    let mut sum = 0u64;
    for place in 0..count {
        sum = sum_of(sum, numbers.number(place));
    }
    sum
}

/// The greatest of so many numbers.
#[tactic(auto, using(crate::proofs::Numbers::greatest_more), unfolding(crate::specs::Series::greatest))]
pub(crate) fn greatest<N: Numbers>(numbers: &N, count: u16) -> u64
    ensures { result ≡ greatest (N.number numbers.now) count }
{
    let mut found = 0u64;
    for place in 0..count {
        found = found.max(numbers.number(place));
    }
    found
}

/// What is summed in a span.
#[derive(Clone, Copy)]
pub(crate) enum Parted {
    /// What came from all ports.
    Ports,
    /// What left at all local ports.
    LocalOutlets,
    /// What left to all remote endpoints.
    RemoteOutlets,
    /// What was dropped in all segments, and in none.
    Segments,
}

/// What is counted in spans.
#[derive(Clone, Copy)]
pub(crate) enum Kind {
    /// What came from a source.
    Arrival(u16),
    /// What left at an outlet.
    Left(u16),
    /// The events of a segment.
    Events(u16),
    /// How often a reason was met.
    Reason(u8),
    /// A sum.
    All(Parted),
}

/// The parts of a sum in a span.
#[derive(Clone, Copy)]
struct PartsAt<'a> {
    counts: &'a ReportCounts,
    parted: Parted,
    span: u16,
}

impl<'a> Numbers for PartsAt<'a> {
    ghost number = { λ parts place. part_at parts.counts.now parts.parted parts.span place };

    fn number(&self, place: u16) -> u64 {
        let span = usize::from(self.span);
        let place = usize::from(place);
        match self.parted {
            Parted::Ports => self.counts.came_at(place + 1, span),
            Parted::LocalOutlets => left_where(self.counts, true, span, place),
            Parted::RemoteOutlets => left_where(self.counts, false, span, place),
            Parted::Segments => self.counts.dropped_at(place, span),
        }
    }
}

/// What left at an outlet in a span, where it is a local port, or where it is none.
fn left_where(counts: &ReportCounts, local: bool, span: usize, outlet: usize) -> u64
    ensures { result ≡ left_where local counts.now span outlet }
{
    if is_port(counts.outlet_name(outlet)) == local {
        counts.left_at(outlet, span)
    } else {
        0
    }
}

/// Whether an outlet of this name is a local port.
fn is_port(name: &[u8]) -> bool
    ensures { result ≡ is_port name.now }
{
    match name {
        [first, ..] => *first == b'p',
        [] => false,
    }
}

/// How many parts a sum has.
fn parts_of(parted: Parted) -> u16
    ensures { result ≡ parts_of parted }
{
    match parted {
        Parted::Ports => 255,
        Parted::LocalOutlets | Parted::RemoteOutlets => 513,
        Parted::Segments => 4095,
    }
}

/// What is counted of a kind in each span.
#[derive(Clone, Copy)]
pub(crate) struct Series<'a>(pub &'a ReportCounts, pub Kind);

impl<'a> Numbers for Series<'a> {
    ghost number = { λ series span. number_at series.0.now series.1 span };

    fn number(&self, span: u16) -> u64 {
        let counts = self.0;
        let at = usize::from(span);
        match self.1 {
            Kind::Arrival(source) => counts.came_at(usize::from(source), at),
            Kind::Left(outlet) => counts.left_at(usize::from(outlet), at),
            Kind::Events(vid) => counts.segment_at(usize::from(vid), at),
            Kind::Reason(reason) => counts.reason_at(reason, at),
            Kind::All(parted) => together(
                &PartsAt {
                    counts,
                    parted,
                    span,
                },
                parts_of(parted),
            ),
        }
    }
}

/// Two series, span by span together.
#[derive(Clone, Copy)]
pub(crate) struct Both<'a> {
    pub counts: &'a ReportCounts,
    pub lower: Kind,
    pub upper: Kind,
}

impl<'a> Numbers for Both<'a> {
    ghost number = { λ both span. sum_of (number_at both.counts.now both.lower span) (number_at both.counts.now both.upper span) };

    fn number(&self, span: u16) -> u64 {
        let lower = Series(self.counts, self.lower);
        let upper = Series(self.counts, self.upper);
        sum_of(lower.number(span), upper.number(span))
    }
}
