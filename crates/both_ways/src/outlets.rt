//! Where segments send frames out.
ghost use Rattle.std.specs.Prelude.{◌≡◌, ◌<◌, ℕ, IfOk, false, length, replicate, set, true};
ghost use Rattle.both_ways.specs.Outlets.{is_kept, kept_outlets, with_outlets};
ghost use Rattle.both_ways.specs.Told.{outlets};
ghost use Rattle.overlay.specs.Ports.{Ports as ThePorts};

use echo_window::PlaceSet;
use overlay::ports::PortSet;
use std::alloc::{AllocError, Global};
use std::marker::Model;
use wire::ether::Vid;

/// How many numbers of 12 bits there are, of which VIDs are some.
const NUMBERS: usize = 4_096;

/// The last era, in which nothing is kept: no run has so many changes.
const LAST: u64 = u64::MAX;

/// Where segments send frames out, by the settings in force. It is worked out once for all frames of a segment between two changes:
/// who keeps it lets it be forgotten where the settings change ([`Outlets::forget`]).
#[derive(Drop)]
pub(crate) struct Outlets {
    /// Another one behind each change.
    era: u64,
    /// By VIDs, in which era it was worked out; 0 where it wasn't yet.
    eras: Vec<u64>,
    places: Vec<PlaceSet>,
}

impl Model for Outlets {
    ghost use Rattle.std.specs.Prelude.{◌≡◌, ◌≤◌, ℕ, length, slice_index_or};
    ghost use Rattle.both_ways.specs.Outlets.{Kept};

    ghost Value = { Kept };

    ghost view = { λ o. record { era = o.era; eras = o.eras.items; places = o.places.items } };

    ghost invariant = { λ o. (1 ≤ o.era) × (length o.eras.items ≡ 4096) × (length o.places.items ≡ 4096)
        × ((vid : ℕ) → slice_index_or o.eras.items vid 0 ≤ o.era) };
}

impl Outlets {
    /// Nothing is known yet. It takes the memory for all segments, and `AllocError` says that there was none.
    pub(crate) fn new(alloc: Global) -> Result<Outlets, AllocError>
        ensures { IfOk result (λ kept. (P : ThePorts) (vid : ℕ) → kept_outlets kept P vid ≡ outlets P vid) }
    {
        Ok(Outlets {
            era: 1,
            eras: no_eras(alloc, number_count())?,
            places: no_places(alloc)?,
        })
    }

    /// Forgets all, since the settings change.
    pub(crate) fn forget(&mut self)
        ensures { (P : ThePorts) (vid : ℕ) → kept_outlets self.new P vid ≡ outlets P vid }
    {
        self.era = self.era.saturating_add(1);
    }

    /// Where a frame of a segment may leave that came in at a place: wherever the segment sends frames out, but not there.
    #[inline(always)]
    pub(crate) fn from_place(&mut self, ports: &PortSet, vid: Vid, place: u8) -> PlaceSet
        ensures places { result ≡ set (kept_outlets self.old ports.now vid) place false }
        ensures same { (v : ℕ) → kept_outlets self.new ports.now v ≡ kept_outlets self.old ports.now v }
    {
        let mut places = self.places(ports, vid);
        places.remove(place);
        places
    }

    /// Where a segment sends frames out.
    #[inline(always)]
    fn places(&mut self, ports: &PortSet, vid: Vid) -> PlaceSet
        ensures places { result ≡ kept_outlets self.old ports.now vid }
        ensures same { (v : ℕ) → kept_outlets self.new ports.now v ≡ kept_outlets self.old ports.now v }
    {
        if self.is_kept(vid) {
            return self.kept(vid);
        }
        let places = sends_at(ports, vid);
        self.keep(vid, places.copied());
        places
    }

    /// Whether where a segment sends frames out was worked out already.
    #[inline(always)]
    fn is_kept(&self, vid: Vid) -> bool
        ensures { result ≡ is_kept self.now vid }
    {
        self.era < LAST && self.eras[index_of(vid)] == self.era
    }

    /// What was kept of a segment last.
    #[inline(always)]
    fn kept(&self, vid: Vid) -> PlaceSet
        requires { is_kept self.now vid ≡ true }
        ensures { (P : ThePorts) → result ≡ kept_outlets self.now P vid }
    {
        self.places[index_of(vid)].copied()
    }

    /// Keeps where a segment sends frames out.
    fn keep(&mut self, vid: Vid, places: PlaceSet)
        ensures kept { self.new ≡ with_outlets self.old vid places }
        ensures eras { vid < length self.old.eras }
        ensures places { vid < length self.old.places }
    {
        let at = index_of(vid);
        self.eras[at] = self.era;
        self.places[at] = places;
    }
}

/// Where what is kept of a segment stands.
#[inline(always)]
fn index_of(vid: Vid) -> usize
    ensures value { result ≡ vid }
    ensures bound { result < 4096 }
{
    usize::from(vid.get())
}

/// How many numbers there are.
fn number_count() -> usize
    ensures { result ≡ 4096 }
{
    NUMBERS
}

/// For so many segments that nothing was worked out yet.
fn no_eras(alloc: Global, count: usize) -> Result<Vec<u64>, AllocError>
    ensures { IfOk result (λ eras. eras.items ≡ replicate count 0) }
{
    vec![in alloc; 0; count]
}

/// Places for all segments.
fn no_places(alloc: Global) -> Result<Vec<PlaceSet>, AllocError>
    ensures { IfOk result (λ places. length places.items ≡ 4096) }
{
    let mut places = Vec::with_capacity(alloc, NUMBERS)?;
    for i in 0..NUMBERS {
        places.push(PlaceSet::new())?;
    }
    Ok(places)
}

/// Where a segment sends frames out: at those of its members that are up.
fn sends_at(ports: &PortSet, vid: Vid) -> PlaceSet
    ensures { result ≡ outlets ports.now vid }
{
    let row = ports.row(vid);
    let mut members = row.members();
    let mut places = PlaceSet::new();
    while let Some(port) = members.next() {
        if row.is_up(port) {
            places.add(port);
        }
    }
    places
}
