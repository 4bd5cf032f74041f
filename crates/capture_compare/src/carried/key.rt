//! The key of a record: two records are the same where their keys are.
ghost use Rattle.std.specs.Prelude.{◌≡◌, ◌≤◌, ◌+◌, ◌-◌, ◌++◌, ◌∷◌, [], ℕ, List, false, true, IfOk, length, vec_capacity};
ghost use Rattle.capture_compare.specs.Key.{carried_key, carried_text, counted, goes_to_reserved, held_by, is_ignored, key_in};
ghost use Rattle.capture_compare.specs.Key.{keyed, mark};
ghost use Rattle.wire.specs.Addr.{address};

use crate::carried::tunnelled::{Tunnelled, tunnelled_whole};
use crate::carried::tunnels::Tunnels;
use std::alloc::{AllocError, Global};
use std::marker::Model;
use wire::ether::EtherView;
use wire::ip_udp::{Addr, Tunnel};

/// How many octets a record has at most.
const LONGEST: usize = 262_144;

/// For how many there is room: a key has the octets of a record, or an inner text and at most 291 more.
const ROOM: usize = LONGEST + 512;

/// How records are compared.
#[derive(Debug, Drop)]
pub struct Manner {
    /// What of two records decides whether they are the same.
    pub sameness: Sameness,
    /// Whether records are left aside whose frames go to an address that no bridge forwards.
    pub ignores_reserved: bool,
}

/// What of two records decides whether they are the same.
#[derive(Debug, Drop)]
pub enum Sameness {
    /// All their octets.
    Whole,
    /// What they carry in one of these tunnels and between whom, where both are whole packets of a tunnel; else all their octets.
    Carried(Tunnels),
}

impl Sameness {
    /// Those of the underlay: strictly all octets, else what is carried in these tunnels.
    pub fn of_underlay(tunnels: Tunnels, strict: bool) -> Sameness
        ensures strict { strict ≡ true → (missing : ℕ) (b : List ℕ) → keyed result missing b ≡ b }
        ensures carried { strict ≡ false → (missing : ℕ) (b : List ℕ) → keyed result missing b ≡ carried_key tunnels missing b }
    {
        if strict {
            Sameness::Whole
        } else {
            Sameness::Carried(tunnels)
        }
    }
}

impl Manner {
    /// Whether a record is left aside.
    pub fn ignores(&self, octets: &[u8]) -> bool
        ensures { result ≡ is_ignored self.now octets.now }
    {
        self.ignores_reserved && goes_to_reserved(octets)
    }
}

/// Whether a frame goes to an address that no bridge forwards (IEEE 802.1Q, 8.6.3).
fn goes_to_reserved(octets: &[u8]) -> bool
    ensures { result ≡ goes_to_reserved octets.now }
{
    match EtherView::read(octets) {
        Ok(frame) => frame.dst().is_reserved(),
        Err(_) => false,
    }
}

/// The key of a record.
#[derive(Clone, Copy)]
pub(crate) struct Key<'a> {
    /// What is compared.
    pub(crate) octets: &'a [u8],
    /// How many octets of the record are missing.
    pub(crate) missing: u32,
}

/// How many octets of a record weren't captured, by its original length and those that were.
pub(crate) fn missing_of(original: u32, octets: &[u8]) -> u32
    requires { length octets.now ≤ 262144 }
    ensures { result ≡ original - length octets.now }
{
    original.saturating_sub(octets.len() as u32)
}

/// Room for the key of one record at a time, seen by contracts as what it holds.
#[derive(Drop)]
pub struct KeyRoom {
    text: Vec<u8>,
}

impl Model for KeyRoom {
    ghost use Rattle.std.specs.Prelude.{ℕ, ◌≤◌, List, vec_capacity};

    ghost Value = { List ℕ };

    ghost view = { λ r. r.text.items };

    ghost invariant = { λ r. 262656 ≤ vec_capacity r.text };
}

impl KeyRoom {
    /// One that holds nothing. It takes all memory that it needs, and `AllocError` says that there was none.
    pub fn new(alloc: Global) -> Result<KeyRoom, AllocError>
        ensures { IfOk result (λ room. room ≡ []) }
    {
        Ok(KeyRoom {
            text: Vec::with_capacity(alloc, ROOM)?,
        })
    }

    /// Makes the key of a record with at most 262,144 octets, of which so many more are missing.
    pub fn put(&mut self, sameness: &Sameness, octets: &[u8], missing: u32)
        requires { length octets.now ≤ 262144 }
        ensures { self.new ≡ held_by sameness.now missing octets.now }
    {
        self.text.clear();
        match sameness {
            Sameness::Whole => {}
            Sameness::Carried(tunnels) => write_key(&mut self.text, tunnels, octets, missing),
        }
    }

    /// The key of a record with these octets, which was put last.
    pub fn key<'a>(&'a self, sameness: &Sameness, octets: &'a [u8]) -> &'a [u8]
        ensures { result.now ≡ key_in sameness.now octets.now self.now }
    {
        match sameness {
            Sameness::Whole => octets,
            Sameness::Carried(_) => self.text.as_slice(),
        }
    }
}

/// Writes the key of a packet by what it carries, where so many octets of it are missing.
fn write_key(text: &mut Vec<u8>, tunnels: &Tunnels, octets: &[u8], missing: u32)
    requires empty { text.old.items ≡ [] }
    requires room { 262656 ≤ vec_capacity text.old }
    requires short { length octets.now ≤ 262144 }
    ensures items { text.new.items ≡ carried_key tunnels.now missing octets.now }
    ensures capacity { vec_capacity text.old ≤ vec_capacity text.new }
{
    match tunnelled_whole(tunnels, octets, missing) {
        Some(carried) => write_carried(text, &carried),
        None => write_whole(text, octets),
    }
}

/// Writes octets behind the mark of what is no packet of a tunnel.
fn write_whole(text: &mut Vec<u8>, octets: &[u8])
    requires empty { text.old.items ≡ [] }
    requires room { 262656 ≤ vec_capacity text.old }
    requires short { length octets.now ≤ 262144 }
    ensures items { text.new.items ≡ 0 ∷ octets.now }
    ensures capacity { vec_capacity text.old ≤ vec_capacity text.new }
{
    append(text, &[0]);
    append(text, octets);
}

/// Writes all that a tunnel carries.
fn write_carried(text: &mut Vec<u8>, carried: &Tunnelled<'_>)
    requires empty { text.old.items ≡ [] }
    requires room { 262656 ≤ vec_capacity text.old }
    requires short { length carried.now.inner ≤ 262144 }
    ensures items { text.new.items ≡ carried_text carried.now }
    ensures capacity { vec_capacity text.old ≤ vec_capacity text.new }
{
    append(text, &[mark_of(carried.kind)]);
    append_address(text, carried.source);
    append_address(text, carried.destination);
    append(text, &carried.vni.octets());
    append_counted(text, carried.options);
    append(text, carried.inner);
}

/// The mark of a kind of tunnel.
fn mark_of(kind: Tunnel) -> u8
    ensures { result ≡ mark kind }
{
    match kind {
        Tunnel::Vxlan => 1,
        Tunnel::Geneve => 2,
    }
}

/// Puts an address behind a text, with its length in front.
fn append_address(text: &mut Vec<u8>, addr: Addr)
    requires { length text.old.items + 17 ≤ vec_capacity text.old }
    ensures items { text.new.items ≡ text.old.items ++ counted (address addr) }
    ensures capacity { vec_capacity text.old ≤ vec_capacity text.new }
    ensures more { length text.new.items ≤ length text.old.items + 17 }
{
    match addr {
        Addr::V4(octets) => append_counted(text, &octets),
        Addr::V6(octets) => append_counted(text, &octets),
    }
}

/// Puts at most 252 octets behind a text, with their number in front.
fn append_counted(text: &mut Vec<u8>, part: &[u8])
    requires short { length part.now ≤ 252 }
    requires room { length text.old.items + length part.now + 1 ≤ vec_capacity text.old }
    ensures items { text.new.items ≡ text.old.items ++ counted part.now }
    ensures capacity { vec_capacity text.old ≤ vec_capacity text.new }
    ensures more { length text.new.items ≡ length text.old.items + length part.now + 1 }
{
    append(text, &[part.len() as u8]);
    append(text, part);
}

/// Puts octets behind others where there is room for them.
fn append(text: &mut Vec<u8>, part: &[u8])
    requires { length text.old.items + length part.now ≤ vec_capacity text.old }
    ensures items { text.new.items ≡ text.old.items ++ part.now }
    ensures capacity { vec_capacity text.old ≤ vec_capacity text.new }
    ensures more { length text.new.items ≡ length text.old.items + length part.now }
{
    // There is room: nothing is taken.
    let _ = text.extend_from_slice(part);
}
