//! Places of captures, as a set.
ghost use Rattle.std.specs.Prelude.{◌≡◌, ◌<◌, ◌/◌, ◌%◌, false, get_or, nat_eq, not, replicate, set, true};
ghost use Rattle.std.specs.List.{list_all};
ghost use Rattle.echo_window.specs.Places.{flags_in};

use std::marker::Model;

/// How many words tell of all places.
const WORDS: usize = 4;

/// How many places a word tells of.
const PLACES: u8 = 64;

/// A set of places, seen by contracts as the list of 256 flags: by the number of a place whether it is in the set.
#[derive(Debug, Drop)]
pub struct PlaceSet {
    /// A bit for each place, the lowest of the first word for place 0.
    words: [u64; WORDS],
}

impl Model for PlaceSet {
    ghost use Rattle.std.specs.Prelude.{Bool, List};
    ghost use Rattle.echo_window.specs.Places.{flags_in};

    ghost Value = { List Bool };

    ghost view = { λ s. flags_in s.words };
}

impl PlaceSet {
    /// The set of no place.
    #[inline(always)]
    pub fn new() -> PlaceSet
        ensures { result ≡ replicate 256 false }
    {
        PlaceSet { words: [0; WORDS] }
    }

    /// The same set.
    #[inline(always)]
    pub fn copied(&self) -> PlaceSet
        ensures { result ≡ self.now }
    {
        PlaceSet { words: self.words }
    }

    /// Whether a place is in it.
    #[inline(always)]
    pub fn has(&self, place: u8) -> bool
        ensures { result ≡ get_or self.now place false }
    {
        (self.words[word_of(place)] >> bit_of(place)) & 1 == 1
    }

    /// Whether no place is in it.
    #[inline(always)]
    pub fn is_empty(&self) -> bool
        ensures { result ≡ list_all not self.now }
    {
        are_zero(&self.words)
    }

    /// Puts a place into it, which may be in it already.
    #[inline(always)]
    pub fn add(&mut self, place: u8)
        ensures { self.new ≡ set self.old place true }
    {
        self.words[word_of(place)] |= 1 << bit_of(place);
    }

    /// Takes a place out of it, which may not be in it.
    #[inline(always)]
    pub fn remove(&mut self, place: u8)
        ensures { self.new ≡ set self.old place false }
    {
        self.words[word_of(place)] &= !(1 << bit_of(place));
    }
}

/// Whether no bit of these words is 1.
#[inline(always)]
fn are_zero(words: &[u64; WORDS]) -> bool
    ensures { result ≡ list_all not (flags_in words.now) }
{
    for i in 0..WORDS {
        if !is_zero(words[i]) {
            return false;
        }
    }
    true
}

/// Whether no bit of a word is 1.
#[inline(always)]
fn is_zero(word: u64) -> bool
    ensures value { result ≡ nat_eq word 0 }
    ensures range { word < 18446744073709551616 }
{
    word == 0
}

/// Which word tells of a place.
#[inline(always)]
fn word_of(place: u8) -> usize
    ensures value { result ≡ place / 64 }
    ensures bound { result < 4 }
{
    usize::from(place / PLACES)
}

/// Which of its bits does.
#[inline(always)]
fn bit_of(place: u8) -> u32
    ensures { result ≡ place % 64 }
{
    u32::from(place % PLACES)
}
