//! Exceptions from the next hop.
//!
//! An exception is keyed by the octets of its address, so that one order serves both families: the octets of the two families
//! differ in number.
ghost use Rattle.std.specs.Prelude.{◌≡◌, None, MatchResult, OnOk, OnErr};
ghost use Rattle.std.specs.FinMap.{empty, get, insert, len};
ghost use Rattle.wire.specs.Addr.{address};
ghost use Rattle.overlay.specs.Search.{IsAt, IsGapFor};

use std::alloc::{AllocError, Global};
use std::marker::Model;
use wire::ether::Mac;
use wire::ip_udp::Addr;

/// Where to send what is for this address.
#[derive(Clone, Copy, Debug)]
struct Hop {
    addr: Addr,
    mac: Mac,
}

/// The exceptions from the next hop, seen by contracts as a finite map from the octets of an address to the MAC address. One
/// is found by a binary search. Only [`Hops::insert`] takes memory.
#[derive(Debug, Drop)]
pub struct Hops {
    /// In the order of the addresses' octets.
    exceptions: Vec<Hop>,
}

impl Model for Hops {
    ghost use Rattle.std.specs.Prelude.{ℕ, List, T, map};
    ghost use Rattle.std.specs.Ordering.{nat_cmp};
    ghost use Rattle.std.specs.Cmp.Lexicographic.{slice_cmp};
    ghost use Rattle.std.specs.Coded.{coded_ℕ, coded_list};
    ghost use Rattle.std.specs.FinMap.{FinMap, code, from_sorted, is_sorted};

    ghost Value = { FinMap (slice_cmp nat_cmp) (List ℕ) };

    ghost coded = { code (coded_list coded_ℕ) (coded_list coded_ℕ) };

    ghost use Rattle.overlay.specs.Exceptions.{exception};

    ghost view = { λ h. from_sorted (map exception h.exceptions.items) };

    ghost invariant = { λ h. T (is_sorted (slice_cmp nat_cmp) (map exception h.exceptions.items)) };
}

impl Hops {
    /// No exception. It asks for no memory.
    pub fn new(alloc: Global) -> Hops
        ensures { result ≡ empty }
    {
        Hops {
            exceptions: Vec::new(alloc),
        }
    }

    /// The number of exceptions.
    pub fn len(&self) -> usize
        ensures { result ≡ len self.now }
    {
        self.exceptions.len()
    }

    /// The exception for an address, where there is one.
    #[inline(always)]
    pub fn get(&self, addr: Addr) -> Option<Mac>
        ensures { result ≡ get self.now (address addr) }
    {
        if self.exceptions.is_empty() {
            return None;
        }
        let place = self.search(addr).ok()?;
        Some(self.exceptions[place].mac)
    }

    /// Adds an exception for an address that has none. `AllocError`: there was no memory for it, and all stays as it was.
    pub fn insert(&mut self, addr: Addr, mac: Mac) -> Result<(), AllocError>
        requires { get self.old (address addr) ≡ None }
        ensures added { OnOk result (self.new ≡ insert self.old (address addr) mac) }
        ensures refused { OnErr result (self.new ≡ self.old) }
    {
        if let Err(place) = self.search(addr) {
            self.exceptions.insert(place, Hop { addr, mac })?;
        }
        Ok(())
    }

    /// The place of an address, or where it would go.
    #[inline(never)]
    fn search(&self, addr: Addr) -> Result<usize, usize>
        ensures { MatchResult result (IsAt self.now (address addr)) (IsGapFor self.now (address addr)) }
    {
        let sought = octets(&addr);
        self.exceptions
            .as_slice()
            .binary_search_by(|hop| octets(&hop.addr).cmp(sought))
    }
}

/// The octets of an address.
fn octets(addr: &Addr) -> &[u8]
    ensures { result.now ≡ address addr.now }
{
    match addr {
        Addr::V4(octets) => octets,
        Addr::V6(octets) => octets,
    }
}
