//! The names of outlets.
ghost use Rattle.std.specs.Prelude.{◌≡◌, ◌≤◌, IfOk, None, [], length, slice_index_or, take, vec_capacity};
ghost use Rattle.wire.specs.Octets.{is_same};
ghost use Rattle.report_counts.specs.Outlets.{place_in, row_of, with_name, with_room};

use crate::outcomes::LONGEST_PLACE;
use std::alloc::{AllocError, Global};
use std::marker::Model;

/// The most names.
pub(crate) const MOST_NAMES: usize = 512;

/// The text of a place, of at most 55 octets; seen by contracts as this text.
#[derive(Drop)]
pub(crate) struct PlaceName {
    octets: [u8; 55],
    len: usize,
}

impl Model for PlaceName {
    ghost use Rattle.std.specs.Prelude.{List, take, ℕ, ◌≤◌};

    ghost Value = { List ℕ };

    ghost view = { λ n. take n.len n.octets };

    ghost invariant = { λ n. n.len ≤ 55 };
}

impl PlaceName {
    /// The first octets of a text, as many as a name may have.
    fn of(text: &[u8]) -> PlaceName
        ensures { result ≡ take 55 text.now }
    {
        let len = text.len().min(LONGEST_PLACE);
        let mut octets = [0; 55];
        octets[..len].copy_from_slice(&text[..len]);
        PlaceName { octets, len }
    }

    fn text(&self) -> &[u8]
        ensures { result.now ≡ self.now }
    {
        &self.octets[..self.len]
    }
}

/// The names of outlets in the order in which they came, at most 512; seen by contracts as their list.
#[derive(Drop)]
pub(crate) struct Names {
    names: Vec<PlaceName>,
}

impl Model for Names {
    ghost use Rattle.std.specs.Prelude.{List, length, vec_capacity, ℕ, ◌≤◌};

    ghost Value = { List (List ℕ) };

    ghost view = { λ n. n.names.items };

    ghost invariant = { λ n. (length n.names.items ≤ 512) × (512 ≤ vec_capacity n.names) };
}

impl Names {
    /// None yet. It reserves the room of all.
    pub(crate) fn new(alloc: Global) -> Result<Names, AllocError>
        ensures { IfOk result (λ names. names ≡ []) }
    {
        let names = Vec::with_capacity(alloc, MOST_NAMES)?;
        Ok(Names { names })
    }

    /// How many there are.
    pub(crate) fn len(&self) -> usize
        ensures { result ≡ length self.now }
    {
        self.names.len()
    }

    /// The name of this number; none behind the last.
    pub(crate) fn get(&self, index: usize) -> &[u8]
        ensures { result.now ≡ slice_index_or self.now index [] }
    {
        match self.names.get(index) {
            Some(name) => name.text(),
            None => &[],
        }
    }

    /// The row of a place, which has a name from now on where there is room: the number of its name, or 512 for all others.
    pub(crate) fn row(&mut self, place: &[u8]) -> usize
        ensures names { self.new ≡ with_name (take 55 place.now) self.old }
        ensures row { result ≡ row_of (take 55 place.now) self.new }
    {
        let name = PlaceName::of(place);
        match place_of(self.names.as_slice(), name.text()) {
            Some(row) => row,
            None => append(&mut self.names, name),
        }
    }
}

/// Puts a new name behind the others, where there is room, and answers its row.
#[tactic(auto, using(crate::proofs::Naming::row_new))]
fn append(names: &mut Vec<PlaceName>, name: PlaceName) -> usize
    requires new { place_in name names.old.items ≡ None }
    requires few { length names.old.items ≤ 512 }
    requires reserved { 512 ≤ vec_capacity names.old }
    ensures names { names.new.items ≡ with_room name names.old.items }
    ensures row { result ≡ row_of name names.new.items }
    ensures few { length names.new.items ≤ 512 }
    ensures reserved { 512 ≤ vec_capacity names.new }
{
    let row = names.len();
    if row < MOST_NAMES {
        names.push_reserved(name);
    }
    row
}

/// The number of a name, where it is among others.
fn place_of(names: &[PlaceName], text: &[u8]) -> Option<usize>
    ensures { result ≡ place_in text.now names.now }
{
    names.iter().position(|name| is_name(name, text))
}

/// Whether a name is this text.
fn is_name(name: &PlaceName, text: &[u8]) -> bool
    ensures { result ≡ is_same name.now text.now }
{
    name.text() == text
}
