//! What left at the places of an event.
ghost use Rattle.std.specs.Prelude.{◌≡◌, ◌<◌, IfSome, MatchOption, None, Some, [], ◌∷◌, length, position};
ghost use Rattle.report_counts.specs.Outcomes.{are_outcomes, has_place_length, is_mark, is_outcome, outcome_by, outcome_of};
ghost use Rattle.report_counts.specs.Outcomes.{outcomes_in, passage_of, reason_named, told};

use line_words::{first_word, number_of};
use std::marker::Model;
use wire::ether::Reason;

/// The most octets of a place's text.
pub(crate) const LONGEST_PLACE: usize = 55;

/// What came of a frame at a place.
#[derive(Clone, Copy, Debug, PartialEq, Eq)]
pub enum Passage {
    /// So many octets left there.
    Left { octets: u64 },
    /// Nothing left there, for the reason of this number: 39 or 40.
    Unsent { reason: u8 },
}

/// A place, and what came of a frame there.
#[derive(Clone, Copy, Debug)]
pub struct Leaving<'a> {
    /// The text of the place, 1 to 55 octets: `p2`, or the address of a remote endpoint.
    pub place: &'a [u8],
    pub passage: Passage,
}

/// What came of a frame at each of its places, in their order, as far as it wasn't handed out yet; seen by contracts as their
/// list.
#[derive(Drop)]
pub struct Outcomes<'a> {
    /// The words that weren't read yet.
    rest: &'a [u8],
}

impl<'a> Model for Outcomes<'a> {
    ghost use Rattle.std.specs.Prelude.{List};
    ghost use Rattle.report_counts.specs.Outcomes.{Told, outcomes_in};

    ghost Value = { List Told };

    ghost view = { λ o. outcomes_in o.rest.now };
}

impl<'a> Outcomes<'a> {
    /// Those of a result.
    pub(crate) fn of(text: &'a [u8]) -> Outcomes<'a>
        ensures { result ≡ outcomes_in text.entry.now }
    {
        Outcomes { rest: text }
    }

    /// The same once more, to be read on its own.
    pub fn again(&self) -> Outcomes<'a>
        ensures { result ≡ self.now }
    {
        Outcomes { rest: self.rest }
    }

    /// Hands out the next one, or none behind the last.
    pub fn next_outcome(&mut self) -> Option<Leaving<'a>>
        ensures { MatchOption result ((self.old ≡ []) × (self.new ≡ [])) (λ leaving. self.old ≡ told leaving ∷ self.new) }
    {
        let (found, rest) = next_in(self.rest);
        self.rest = rest;
        found
    }
}

/// The first outcome of a text, and what stands behind it; none where it has no outcome.
#[tactic(auto, using(crate::proofs::Steps::behind_shorter, crate::proofs::Steps::outcomes_found, crate::proofs::Steps::outcomes_skipped))]
fn next_in(text: &[u8]) -> (Option<Leaving<'_>>, &[u8])
    ensures { MatchOption result.0 ((outcomes_in text.now ≡ []) × (outcomes_in result.1.now ≡ []))
        (λ leaving. outcomes_in text.now ≡ told leaving ∷ outcomes_in result.1.now) }
{
    let mut rest = text;
    while !rest.is_empty() {
        let (word, behind) = first_word(rest);
        let found = outcome_of(word);
        rest = behind;
        if let Some(leaving) = found {
            return (Some(leaving), rest);
        }
    }
    (None, rest)
}

/// Whether each word of a text that isn't empty is an outcome.
#[tactic(auto, using(crate::proofs::Steps::behind_shorter, crate::proofs::Steps::are_step))]
pub(crate) fn are_outcomes(text: &[u8]) -> bool
    ensures { result ≡ are_outcomes text.now }
{
    let mut rest = text;
    while !rest.is_empty() {
        let (word, behind) = first_word(rest);
        if !is_outcome(word) {
            return false;
        }
        rest = behind;
    }
    true
}

/// Whether a word is empty or tells an outcome.
fn is_outcome(word: &[u8]) -> bool
    ensures { result ≡ is_outcome word.now }
{
    if word.is_empty() {
        return true;
    }
    match outcome_of(word) {
        Some(_) => true,
        None => false,
    }
}

/// What a word tells, where it is an outcome at a place.
fn outcome_of(word: &[u8]) -> Option<Leaving<'_>>
    ensures { MatchOption result (outcome_of word.now ≡ None) (λ leaving. outcome_of word.now ≡ Some (told leaving)) }
{
    match mark_in(word) {
        Some(at) => outcome_by(word, at),
        None => None,
    }
}

/// What a word tells with a mark at this place.
fn outcome_by(word: &[u8], at: usize) -> Option<Leaving<'_>>
    requires { at < length word.now }
    ensures { MatchOption result (outcome_by word.now at ≡ None) (λ leaving. outcome_by word.now at ≡ Some (told leaving)) }
{
    if !has_place_length(at) {
        return None;
    }
    match passage_of(word[at], &word[at + 1..]) {
        Some(passage) => Some(Leaving {
            place: &word[..at],
            passage,
        }),
        None => None,
    }
}

/// Whether a place may have so many octets.
fn has_place_length(count: usize) -> bool
    ensures { result ≡ has_place_length count }
{
    0 < count && count <= LONGEST_PLACE
}

/// Where the first mark of a word stands.
fn mark_in(word: &[u8]) -> Option<usize>
    ensures value { result ≡ position is_mark word.now }
    ensures inside { IfSome result (λ at. at < length word.now) }
{
    word.iter().position(|c| is_mark(*c))
}

/// Whether an octet stands between a place and what came of a frame there.
fn is_mark(octet: u8) -> bool
    ensures { result ≡ is_mark octet }
{
    octet == b'=' || octet == b'!'
}

/// What a text behind such a mark tells.
fn passage_of(mark: u8, text: &[u8]) -> Option<Passage>
    ensures { result ≡ passage_of mark text.now }
{
    if mark == b'=' {
        let octets = number_of(text)?;
        Some(Passage::Left { octets })
    } else {
        let reason = reason_named(text)?;
        Some(Passage::Unsent { reason })
    }
}

/// The number of the reason of this name, of those for which nothing leaves at a place.
fn reason_named(name: &[u8]) -> Option<u8>
    ensures { result ≡ reason_named name.now }
{
    if name == Reason::TooBig.name().as_bytes() {
        Some(Reason::TooBig.number())
    } else if name == Reason::InnerTagOut.name().as_bytes() {
        Some(Reason::InnerTagOut.number())
    } else {
        None
    }
}
