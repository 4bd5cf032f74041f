//! The ranks of talks.
ghost use Rattle.std.specs.Prelude.{◌≡◌, ◌<◌, ◌≤◌, ◌+◌, ◌*◌, ◌^◌};
ghost use Rattle.std.specs.List.{All};
ghost use Rattle.wire.specs.Octets.{field};
ghost use Rattle.talkers.specs.Talk.{address_number, exit_kind, exit_number, family_number};
ghost use Rattle.talkers.specs.Talk.{pair_number, place_kind, rank, place_number, places_number, tunnel_kind};

use crate::rows::talk::{Exit, Talk};
use byteorder::{BigEndian, ByteOrder};
use filter_db::Place;
use wire::ether::Mac;
use wire::ip_udp::{Addr, Tunnel};

/// So far two kinds of places are apart.
const KINDS: u8 = 8;

impl Talk {
    /// Its segment, source and destination as one number, in three parts of which the lower two have 48 bits.
    #[tactic(auto, unfolding(crate::specs::Talk::pair_number))]
    #[inline(always)]
    pub(crate) fn pair_words(&self) -> (u16, u64, u64)
        ensures value { pair_number self.now ≡ (result.0 * 2 ^ 48 + result.1) * 2 ^ 48 + result.2 }
        ensures source { result.1 < 2 ^ 48 }
        ensures destination { result.2 < 2 ^ 48 }
    {
        (
            self.vid.get(),
            mac_number(self.source),
            mac_number(self.destination),
        )
    }

    /// That the number of its places ends below 2^262. It does nothing.
    #[inline(always)]
    pub(crate) fn places_are_few(&self)
        ensures { places_number self.now < 2 ^ 262 }
    {
        let _ = self.places_number();
    }

    /// That its rank tells its segment first: those of a segment before its own are lesser, and those of one behind it greater.
    /// It does nothing.
    #[tactic(auto, unfolding(crate::specs::Talk::pair_number))]
    #[inline(always)]
    pub(crate) fn stands_by_segment(&self)
        ensures from { self.now.vid * 2 ^ 358 ≤ rank self.now }
        ensures below { rank self.now < (self.now.vid + 1) * 2 ^ 358 }
    {
        self.places_are_few();
        let _ = mac_number(self.source);
        let _ = mac_number(self.destination);
    }

    /// That another of the same number has its segment, source and destination. It does nothing.
    #[tactic(auto, unfolding(crate::specs::Talk::pair_number))]
    pub(crate) fn has_addresses_alone(&self, other: &Talk)
        ensures vid { pair_number self.now ≡ pair_number other.now → self.now.vid ≡ other.now.vid }
        ensures source { pair_number self.now ≡ pair_number other.now → self.now.source ≡ other.now.source }
        ensures destination { pair_number self.now ≡ pair_number other.now → self.now.destination ≡ other.now.destination }
    {
        let _ = (mac_number(other.source), mac_number(self.source));
        let _ = (mac_number(other.destination), mac_number(self.destination));
        has_number_alone(self.source, other.source);
        has_number_alone(self.destination, other.destination);
    }

    /// That another of the same number comes from its place and goes where it goes. It does nothing.
    #[tactic(auto, unfolding(crate::specs::Talk::places_number))]
    pub(crate) fn has_places_alone(&self, other: &Talk)
        ensures from { places_number self.now ≡ places_number other.now → self.now.from ≡ other.now.from }
        ensures to { places_number self.now ≡ places_number other.now → self.now.to ≡ other.now.to }
    {
        let _ = (exit_kind(self.to), exit_kind(other.to));
        let _ = (place_number(self.from), place_number(other.from));
        let _ = (exit_number(self.to), exit_number(other.to));
        is_place_alone(self.from, other.from);
        is_exit_alone(self.to, other.to);
    }

    /// Its places as one number, in three parts of which the lower two have 128 bits.
    #[tactic(auto, unfolding(crate::specs::Talk::places_number))]
    #[inline(always)]
    pub(crate) fn places_number(&self) -> (u8, u128, u128)
        ensures value { places_number self.now ≡ (result.0 * 2 ^ 128 + result.1) * 2 ^ 128 + result.2 }
        ensures low { result.0 < 64 }
    {
        let kinds = place_kind(self.from) * KINDS + exit_kind(self.to);
        (kinds, place_number(self.from), exit_number(self.to))
    }
}

/// The number that the octets of a MAC address spell.
pub(crate) fn mac_number(mac: Mac) -> u64
    ensures value { result ≡ field 0 6 mac }
    ensures low { result < 2 ^ 48 }
{
    BigEndian::read_u48(&mac.0)
}

/// The number of the kind of a place.
fn place_kind(place: Place) -> u8
    ensures value { result ≡ place_kind place }
    ensures low { result < 5 }
{
    match place {
        Place::Local(_) => 0,
        Place::Remote(kind, address) => tunnel_kind(kind) + family_number(address),
    }
}

/// The number of a kind of tunnel.
fn tunnel_kind(kind: Tunnel) -> u8
    ensures value { result ≡ tunnel_kind kind }
    ensures low { result < 4 }
{
    match kind {
        Tunnel::Vxlan => 1,
        Tunnel::Geneve => 3,
    }
}

/// The number of a family of addresses.
fn family_number(address: Addr) -> u8
    ensures value { result ≡ family_number address }
    ensures low { result < 2 }
{
    match address {
        Addr::V4(_) => 0,
        Addr::V6(_) => 1,
    }
}

/// The number of a place among those of its kind.
fn place_number(place: Place) -> u128
    ensures { result ≡ place_number place }
{
    match place {
        Place::Local(port) => u128::from(port),
        Place::Remote(_, address) => address_number(address),
    }
}

/// The number that the octets of an address spell.
fn address_number(address: Addr) -> u128
    ensures { result ≡ address_number address }
{
    match &address {
        Addr::V4(octets) => u128::from(BigEndian::read_u32(octets)),
        Addr::V6(octets) => BigEndian::read_u128(octets),
    }
}

/// The number of the kind of where a frame goes.
fn exit_kind(to: Exit) -> u8
    ensures value { result ≡ exit_kind to }
    ensures low { result < 8 }
{
    match to {
        Exit::To(place) => place_kind(place),
        Exit::Flood => 5,
        Exit::Drop => 6,
    }
}

/// The number of where a frame goes among those of its kind.
fn exit_number(to: Exit) -> u128
    ensures { result ≡ exit_number to }
{
    match to {
        Exit::To(place) => place_number(place),
        Exit::Flood | Exit::Drop => 0,
    }
}

/// That another of its number is it. It does nothing.
fn has_number_alone(mac: Mac, other: Mac)
    ensures { field 0 6 mac ≡ field 0 6 other → mac ≡ other }
{
    octets_fit(&mac.0);
    octets_fit(&other.0);
}

/// That each octet is below 256, which a clause cannot say of an array. It does nothing.
fn octets_fit(octets: &[u8])
    ensures { All (λ octet. octet < 256) octets.now }
{
    for i in 0..octets.len() {
        let _ = octets[i];
    }
}

/// That another of its kind and number is it. It does nothing.
fn is_place_alone(place: Place, other: Place)
    ensures { place_kind place ≡ place_kind other → place_number place ≡ place_number other → place ≡ other }
{
    if let (Place::Remote(_, address), Place::Remote(_, another)) = (place, other) {
        is_address_alone(address, another);
    }
}

/// That another of its family and number is it. It does nothing.
fn is_address_alone(address: Addr, other: Addr)
    ensures { family_number address ≡ family_number other → address_number address ≡ address_number other → address ≡ other }
{
    match (&address, &other) {
        (Addr::V4(octets), Addr::V4(others)) => {
            octets_fit(octets);
            octets_fit(others);
        }
        (Addr::V6(octets), Addr::V6(others)) => {
            octets_fit(octets);
            octets_fit(others);
        }
        (Addr::V4(_), Addr::V6(_)) | (Addr::V6(_), Addr::V4(_)) => (),
    }
}

/// That another of its kind and number is it. It does nothing.
fn is_exit_alone(to: Exit, other: Exit)
    ensures { exit_kind to ≡ exit_kind other → exit_number to ≡ exit_number other → to ≡ other }
{
    if let (Exit::To(place), Exit::To(another)) = (to, other) {
        is_place_alone(place, another);
    }
}
