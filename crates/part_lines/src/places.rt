//! The places that a line tells.
ghost use Rattle.std.specs.Prelude.{◌≡◌, ◌<◌, ◌≤◌, ◌+◌, [], ◌∷◌, IfSome, MatchOption, None, Some, decimal, drop, length};
ghost use Rattle.part_lines.specs.Parts.{places_in};
ghost use Rattle.part_lines.specs.Sent.{has_places, is_sound, port_at, sent_by, sent_in, tap_of};
ghost use Rattle.part_lines.specs.Words.{before_equals};
ghost use Rattle.timeline.specs.declared.source.Tap.TheVariants.{Port};

use crate::words::word_end;
use line_words::{first_place, number_of};
use std::fmt;
use std::marker::Model;
use timeline::Tap;

/// The places where an event was sent and that weren't handed out yet, in order; seen by contracts as their list.
#[derive(Drop)]
pub struct Places<'a> {
    /// A line without its end.
    line: &'a [u8],
    /// Where the words of its result begin that weren't read yet.
    at: usize,
}

impl<'a> Model for Places<'a> {
    ghost use Rattle.std.specs.Prelude.{List, drop};
    ghost use Rattle.timeline.specs.declared.source.Tap.{Tap};
    ghost use Rattle.part_lines.specs.Sent.{sent_in};

    ghost Value = { List Tap };

    ghost view = { λ p. sent_in (drop p.at p.line.now) };
}

impl fmt::Debug for Places<'_> {
    /// The words that weren't read yet.
    fn fmt<W: fmt::Write>(&self, f: &mut fmt::Formatter<W>) -> fmt::Result {
        let rest = self.line.get(self.at..).unwrap_or(&[]);
        f.debug_struct("Places").field("rest", &rest).finish()
    }
}

impl<'a> Places<'a> {
    /// Those of a line, up to and with its line feed, whose result begins there.
    #[inline]
    pub fn behind(text: &'a [u8], at: usize) -> Places<'a>
        ensures { result ≡ places_in text.entry.now at }
    {
        let line = match text {
            [line @ .., _] => line,
            [] => text,
        };
        Places { line, at }
    }

    /// Hands out the next place, or none behind the last.
    pub fn next_place(&mut self) -> Option<Tap>
        ensures { MatchOption result ((self.old ≡ []) × (self.new ≡ [])) (λ tap. self.old ≡ tap ∷ self.new) }
    {
        let (found, behind) = next_in(self.line, self.at);
        self.at = behind;
        found
    }
}

/// The first place of a result, which begins there, and where what stands behind it begins; none where it has no place.
#[tactic(auto, using(crate::proofs::Splits::sent_found, crate::proofs::Splits::sent_skipped))]
fn next_in(line: &[u8], from: usize) -> (Option<Tap>, usize)
    ensures { MatchOption result.0 ((sent_in (drop from line.now) ≡ []) × (sent_in (drop result.1 line.now) ≡ []))
        (λ tap. sent_in (drop from line.now) ≡ tap ∷ sent_in (drop result.1 line.now)) }
{
    let mut at = from;
    while at < line.len() {
        let end = word_end(line, at);
        let found = sent_by(&line[..end], at);
        at = end + 1;
        if let Some(tap) = found {
            return (Some(tap), at);
        }
    }
    (None, at)
}

/// Where the last word of a text, which begins there, says that a frame was sent.
fn sent_by(text: &[u8], from: usize) -> Option<Tap>
    requires { from ≤ length text.now }
    ensures { result ≡ sent_by (drop from text.now) }
{
    if let Some(port) = short_port(&text[from..]) {
        return Some(Tap::Port(port));
    }
    tap_of(place_in(text, from)?)
}

/// Whether each word of a result, which begins there, with a `=` in it has a place before that.
#[tactic(auto, using(crate::proofs::Splits::places_step))]
pub(crate) fn has_places(line: &[u8], from: usize) -> bool
    ensures { result ≡ has_places (drop from line.now) }
{
    let mut at = from;
    while at < line.len() {
        let end = word_end(line, at);
        if !is_sound(&line[..end], at) {
            return false;
        }
        at = end + 1;
    }
    true
}

/// Whether the last word of a text, which begins there, has a place before its `=`, where it has one. Only one that begins
/// with a `p` or the `=` can be without.
fn is_sound(text: &[u8], from: usize) -> bool
    requires { from ≤ length text.now }
    ensures { result ≡ is_sound (drop from text.now) }
{
    match &text[from..] {
        [b'p' | b'=', ..] => is_placed(text, from),
        _ => true,
    }
}

/// The same, whatever the word begins with.
#[tactic(auto, using(crate::proofs::Ports::sound_sent))]
fn is_placed(text: &[u8], from: usize) -> bool
    requires { from ≤ length text.now }
    ensures { result ≡ is_sound (drop from text.now) }
{
    if short_port(&text[from..]).is_some() {
        return true;
    }
    match place_in(text, from) {
        Some(place) => tap_of(place).is_some(),
        None => true,
    }
}

/// The port that a word was sent at, where it begins with a `p`, one or two digits and a `=`. `None` says nothing of a word.
#[inline]
fn short_port(word: &[u8]) -> Option<u8>
    ensures { IfSome result (λ port. sent_by word.now ≡ Some (Port port)) }
{
    match word {
        [b'p', one, b'=', ..] => digit(*one),
        [b'p', ten, one, b'=', ..] => two_digits(*ten, *one),
        _ => None,
    }
}

/// The number that a digit writes.
#[inline]
fn digit(c: u8) -> Option<u8>
    ensures { IfSome result (λ n. (n < 10) × (c ≡ 48 + n)) }
{
    if c.is_ascii_digit() {
        Some(c - b'0')
    } else {
        None
    }
}

/// The number that two digits write, of which the first isn't 0.
#[inline]
fn two_digits(first: u8, second: u8) -> Option<u8>
    ensures { IfSome result (λ n. (n < 100) × (decimal n ≡ first ∷ second ∷ [])) }
{
    let Some(ten) = digit(first) else {
        return None;
    };
    let Some(one) = digit(second) else {
        return None;
    };
    if ten == 0 {
        return None;
    }
    Some(ten * 10 + one)
}

/// What stands before the first `=` of the last word of a text, which begins there.
fn place_in(text: &[u8], from: usize) -> Option<&[u8]>
    requires { from ≤ length text.now }
    ensures { MatchOption result (before_equals (drop from text.now) ≡ None)
        (λ place. before_equals (drop from text.now) ≡ Some place.now) }
{
    match first_place(b'=', text, from) {
        Some(end) => Some(&text[from..end]),
        None => None,
    }
}

/// The capture that the records of a place stand in.
fn tap_of(place: &[u8]) -> Option<Tap>
    ensures { result ≡ tap_of place.now }
{
    match place {
        [] => None,
        [b'p', digits @ ..] => port_at(number_of(digits)?),
        _ => Some(Tap::Underlay),
    }
}

/// The port of this number, where there can be one.
fn port_at(number: u64) -> Option<Tap>
    ensures { result ≡ port_at number }
{
    if number < 256 {
        Some(Tap::Port(number as u8))
    } else {
        None
    }
}
