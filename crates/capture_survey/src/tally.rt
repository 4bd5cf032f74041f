//! What is counted of the records of a capture.
ghost use Rattle.std.specs.Prelude.{◌≡◌, ◌++◌, ◌∷◌, [], List};
ghost use Rattle.pcap.specs.Record.{Record as ARecord};
ghost use Rattle.timeline.specs.declared.source.Tap.{Tap as ATap};
ghost use Rattle.capture_survey.specs.Tally.{HasRoom, first_of, is_below, is_cut_short, is_left_to_card};
ghost use Rattle.capture_survey.specs.Tally.{is_too_long, last_of, longest_at, one_if, tally_of};

use pcap::text::Record;
use timeline::Tap;

/// The octets of a frame at a local port at most, in a run.
const LONGEST_FRAME: usize = 65_535;

/// The octets of a packet from the underlay at most, in a run.
const LONGEST_PACKET: usize = 65_549;

/// The moments at which a run takes the first and the last record, in nanoseconds: a record that is earlier than one before
/// it takes that one's moment.
#[derive(Clone, Copy)]
pub struct Span {
    pub first: u64,
    pub last: u64,
}

/// What is counted of some records.
#[derive(Clone, Copy)]
pub struct Tally {
    /// How many they are.
    pub records: u64,
    /// None where there are none.
    pub span: Option<Span>,
    /// Records that are earlier than one before them.
    pub falls: u64,
    /// Records with fewer octets than their frame had.
    pub cut_short: u64,
    /// Records with more octets than a run takes there.
    pub too_long: u64,
    /// Packets from the underlay whose UDP checksums their senders left to their network cards.
    pub left_to_card: u64,
}

impl Tally {
    /// That of no records.
    pub(crate) fn none() -> Tally
        ensures { (tap : ATap) → result ≡ tally_of tap [] }
    {
        Tally {
            records: 0,
            span: None,
            falls: 0,
            cut_short: 0,
            too_long: 0,
            left_to_card: 0,
        }
    }

    /// Counts one more record of a tap behind them.
    pub(crate) fn add(&mut self, next: &Record, tap: Tap)
        requires { HasRoom self.old }
        ensures { (rs : List ARecord) → self.old ≡ tally_of tap rs → self.new ≡ tally_of tap (rs ++ next.now ∷ []) }
    {
        let moment = next.moment;
        self.records += 1;
        self.cut_short += one_if(is_cut_short(next));
        self.too_long += one_if(is_too_long(next, longest_at(tap)));
        self.left_to_card += one_if(is_left_to_card(next, tap));
        self.falls += one_if(is_below(self.span, moment));
        self.span = Some(Span {
            first: first_of(self.span, moment),
            last: last_of(self.span, moment),
        });
    }
}

/// How many octets a record of a tap may have, so that a run doesn't drop it as too long (reason 1, TooLong).
fn longest_at(tap: Tap) -> usize
    ensures { result ≡ longest_at tap }
{
    match tap {
        Tap::Port(_) => LONGEST_FRAME,
        Tap::Underlay => LONGEST_PACKET,
    }
}

/// Whether a record has fewer octets than its frame had.
fn is_cut_short(found: &Record) -> bool
    ensures { result ≡ is_cut_short found.now }
{
    found.octets.len() < found.original as usize
}

/// Whether it has more octets than a bound.
fn is_too_long(found: &Record, bound: usize) -> bool
    ensures { result ≡ is_too_long bound found.now }
{
    found.octets.len() > bound
}

/// Whether it is a packet from the underlay whose UDP checksum its sender left to its network card.
fn is_left_to_card(found: &Record, tap: Tap) -> bool
    ensures { result ≡ is_left_to_card tap found.now }
{
    match tap {
        Tap::Port(_) => false,
        Tap::Underlay => decapsulate::is_left_to_card(found.octets),
    }
}

/// Whether a moment is earlier than one of some records.
fn is_below(span: Option<Span>, moment: u64) -> bool
    ensures { result ≡ is_below span moment }
{
    span.map_or(false, |span| moment < span.last)
}

/// The first moment of some records, and of one more behind them.
fn first_of(span: Option<Span>, moment: u64) -> u64
    ensures { result ≡ first_of span moment }
{
    span.map_or(moment, |span| span.first)
}

/// The last moment of some records, and of one more behind them.
fn last_of(span: Option<Span>, moment: u64) -> u64
    ensures { result ≡ last_of span moment }
{
    span.map_or(moment, |span| moment.max(span.last))
}

/// 1 for true.
fn one_if(holds: bool) -> u64
    ensures { result ≡ one_if holds }
{
    if holds { 1 } else { 0 }
}
