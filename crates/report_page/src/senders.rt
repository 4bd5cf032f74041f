//! Who sent in which segment, and from where.
//!
//! Each sender is kept once, and beside it an octet made of its segment and source: who has the same octet is found sixteen at a
//! time, so that not each talk is compared with each.
ghost use Rattle.std.specs.Prelude.{◌≡◌, ℕ, ◌<◌, ◌++◌, ◌∷◌, [], List, false, length, map, take, true};
ghost use Rattle.std.specs.List.{list_any};
ghost use Rattle.report_page.specs.Senders.{is_wanted, mark_behind, mark_of, sends};
ghost use Rattle.report_page.specs.Told.{is_elsewhere, talks_of, word_at};
ghost use Rattle.report_page.specs.declared.senders.Sender.{Sender};

use crate::chosen::next_chosen;
use crate::talks::Talks;
use crate::told_rows::word_at;
use arrayvec::ArrayVec;
use line_words::first_place;
use std::marker::Model;

/// A source in a segment, and a place that it sent from.
#[derive(Clone, Copy, Default)]
pub(crate) struct Sender<'t> {
    segment: &'t [u8],
    source: &'t [u8],
    place: &'t [u8],
}

impl<'t> Sender<'t> {
    /// That of the line of a talk.
    pub(crate) fn of(line: &'t [u8]) -> Sender<'t>
        ensures segment { result.segment.now ≡ word_at 1 line.now }
        ensures source { result.source.now ≡ word_at 2 line.now }
        ensures place { result.place.now ≡ word_at 3 line.now }
    {
        Sender {
            segment: word_at(1, line),
            source: word_at(2, line),
            place: word_at(3, line),
        }
    }

    /// The octet that stands for its segment and source.
    #[tactic(auto, unfolding(crate::specs::Senders::mark_of))]
    fn mark(&self) -> u8
        ensures { result ≡ mark_of self.now }
    {
        mark_behind(mark_behind(0, self.segment), self.source)
    }

    /// Whether it is that source in that segment, and sent from the place of that one, or else from another.
    #[tactic(auto, unfolding(crate::specs::Senders::sends))]
    fn sends(&self, there: bool, wanted: &Sender<'_>) -> bool
        ensures { result ≡ sends there wanted.now.segment.now wanted.now.source.now wanted.now.place.now self.now }
    {
        self.segment == wanted.segment
            && self.source == wanted.source
            && is_wanted(there, self.place == wanted.place)
    }
}

/// Whether it is a place itself that is wanted, or another.
fn is_wanted(there: bool, is_same: bool) -> bool
    ensures { result ≡ is_wanted there is_same }
{
    if there { is_same } else { !is_same }
}

/// The octet that stands for a text, behind that of another.
fn mark_behind(mark: u8, text: &[u8]) -> u8
    ensures { result ≡ mark_behind mark text.now }
{
    let mut found = mark;
    let mut rest = text;
    while let [c, behind @ ..] = rest {
        found = found.wrapping_mul(31).wrapping_add(*c);
        rest = behind;
    }
    found
}

/// Senders, each once.
#[derive(Drop)]
pub(crate) struct Senders<'t> {
    /// Their octets, in their order.
    marks: ArrayVec<u8, 4096>,
    all: ArrayVec<Sender<'t>, 4096>,
}

impl<'t> Model for Senders<'t> {
    ghost Value = { List Sender };

    ghost view = { λ s. s.all.items };

    ghost invariant = { λ s. s.marks.items ≡ map mark_of s.all.items };
}

impl<'t> Senders<'t> {
    /// No senders.
    fn new() -> Senders<'t>
        ensures { result ≡ [] }
    {
        Senders {
            marks: ArrayVec::new(),
            all: ArrayVec::new(),
        }
    }

    /// Whether one of them is this sender.
    fn has(&self, wanted: &Sender<'_>) -> bool
        ensures { result ≡ list_any (sends true wanted.now.segment.now wanted.now.source.now wanted.now.place.now) self.now }
    {
        some_sends(true, wanted, self.all.as_slice(), self.marks.as_slice())
    }

    /// Whether one of them is that source in that segment, and sent from another place.
    pub(crate) fn has_elsewhere(&self, wanted: &Sender<'_>) -> bool
        ensures { result ≡ list_any (sends false wanted.now.segment.now wanted.now.source.now wanted.now.place.now) self.now }
    {
        some_sends(false, wanted, self.all.as_slice(), self.marks.as_slice())
    }

    /// Adds one.
    fn add(&mut self, sender: Sender<'t>)
        requires { length self.old < 4096 }
        ensures { self.new ≡ self.old ++ sender.entry ∷ [] }
    {
        let mark = sender.mark();
        self.marks.push(mark);
        self.all.push(sender);
    }
}

/// Whether one of some senders, whose octets these are, is that source in that segment, and sent from its place, or else from
/// another.
fn some_sends(there: bool, wanted: &Sender<'_>, senders: &[Sender<'_>], marks: &[u8]) -> bool
    requires { marks.now ≡ map mark_of senders.now }
    ensures { result ≡ list_any (sends there wanted.now.segment.now wanted.now.source.now wanted.now.place.now) senders.now }
{
    let mark = wanted.mark();
    let mut at = 0;
    while let Some(place) = first_place(mark, marks, at) {
        if senders[place].sends(there, wanted) {
            return true;
        }
        at = place + 1;
    }
    false
}

/// Those of the first 4,096 talks of a text: a run prints no more.
pub(crate) fn senders_of(text: &[u8]) -> Senders<'_>
    ensures { (segment source place : List ℕ) → list_any (sends false segment source place) result
        ≡ list_any (is_elsewhere segment source place) (take 4096 (talks_of text.now)) }
{
    let mut senders = Senders::new();
    let mut rest = text;
    let mut left = 4096u64;
    while left > 0 {
        let Some((line, behind)) = next_chosen(&Talks, rest) else {
            return senders;
        };
        let sender = Sender::of(line);
        if !senders.has(&sender) {
            senders.add(sender);
        }
        left -= 1;
        rest = behind;
    }
    senders
}
