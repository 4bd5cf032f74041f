//! Reasons by their numbers, and those that were met most first.
ghost use Rattle.std.specs.Prelude.{◌≡◌, ◌≤◌, [], length, map, slice_get, slice_index, slice_index_or};
ghost use Rattle.report_page.specs.Reasons.{reason_at, reason_name, reasons_in_order, sentence_of, told_text};

use crate::order::largest;
use crate::reasons::SENTENCES;
use crate::series::Numbers;
use arrayvec::ArrayVec;
use report_counts::ReportCounts;
use wire::ether::{REASONS, Reason};

/// How often each reason was met in all segments.
#[derive(Clone, Copy)]
struct Met<'a>(&'a ReportCounts);

impl<'a> Numbers for Met<'a> {
    ghost number = { λ met place. slice_index met.0.now.reasons.all (reason_at place) };

    fn number(&self, place: u16) -> u64 {
        self.0.reason(reason_at(place))
    }
}

/// The reasons that were met, by their places: those that were met most first, and of two met as often that of the lower number.
#[tactic(auto, unfolding(crate::specs::Reasons::reasons_in_order))]
pub(crate) fn reasons_in_order(counts: &ReportCounts) -> ArrayVec<u16, 41>
    ensures places { result.items ≡ reasons_in_order counts.now }
    ensures few { length result.items ≤ 40 }
{
    largest(&Met(counts), 40)
}

/// The number of the reason of a place from 0.
pub(crate) fn reason_at(place: u16) -> u8
    ensures { result ≡ reason_at place }
{
    (place % 40) as u8 + 1
}

/// The text of a place in a table; nothing behind its end.
fn text_in(texts: &[&'static str], place: u16) -> &'static str
    ensures { result.now ≡ slice_index_or (map told_text texts.now) place [] }
{
    match texts.get(usize::from(place)) {
        Some(text) => *text,
        None => "",
    }
}

/// What the reason of a number means.
#[tactic(auto, unfolding(crate::specs::Reasons::sentence_of))]
pub(crate) fn sentence_of(number: u8) -> &'static str
    ensures { result.now ≡ sentence_of number }
{
    text_in(&SENTENCES, u16::from(number).saturating_sub(1))
}

/// The reason of a place in a table; none behind its end.
fn reason_in(reasons: &[Reason], place: u16) -> Option<Reason>
    ensures { result ≡ slice_get reasons.now place }
{
    reasons.get(usize::from(place)).copied()
}

/// The name of the reason of a number; of none of them nothing.
#[tactic(auto, unfolding(crate::specs::Reasons::reason_name))]
pub(crate) fn reason_name(number: u8) -> &'static str
    ensures { result.now ≡ reason_name number }
{
    match reason_in(&REASONS, u16::from(number).saturating_sub(1)) {
        Some(reason) => reason.name(),
        None => "",
    }
}
