//! The events that are sought by what they have: of each kind the first.
ghost use Rattle.std.specs.Prelude.{◌≡◌, ◌++◌, ◌&&◌, ◌||◌, IfOk, OnOk, Some, false, map, nat_eq, not, slice_index_or};
ghost use Rattle.std.specs.List.{list_any};
ghost use Rattle.endpoint_core.specs.Kept.{state_of};
ghost use Rattle.run_reports.specs.Sought.{address_at, address_met, addresses_at, addresses_sought, every_tap};
ghost use Rattle.run_reports.specs.Sought.{foreseen, is_first, is_new_address, is_new_reason, is_new_by, is_with, met_by, numbers_from};
ghost use Rattle.run_reports.specs.Sought.{numbers_in, passing_of, reason_at, reason_met, reasons_sought};

use crate::causes::{Causes, is_marked, mark_causes};
use crate::passing::{Passing, foreseen, passing_of, same_address, same_tap};
use crate::wanted::{Reasons, address_in, reasons_in};
use endpoint_core::{Endpoint, Outlets};
use std::alloc::{AllocError, Global};
use timeline::{Event, Tap};
use wire::ether::Mac;

/// How many reasons there are.
const REASONS: u8 = 40;

/// The most ports of a run.
const MOST_PORTS: u8 = 255;

/// A reason for which something isn't sent.
#[derive(Clone, Copy)]
pub struct SoughtReason {
    /// Its number, 1 to 40.
    pub number: u8,
    /// That of the name which asks for it, in the list of all.
    pub place: usize,
    /// Whether an event had it.
    pub is_met: bool,
}

/// An address of a frame that comes at a tap.
#[derive(Clone, Copy)]
pub struct SoughtAddress {
    pub address: Mac,
    pub tap: Tap,
    /// That of the name which asks for it, in the list of all.
    pub place: usize,
    /// Whether an event had it.
    pub is_met: bool,
}

/// What is sought.
#[derive(Drop)]
pub struct Sought {
    pub reasons: Vec<SoughtReason>,
    pub addresses: Vec<SoughtAddress>,
    /// Where the frame of an event goes, made once for all events.
    places: Outlets,
}

impl Sought {
    /// What these names ask for. `AllocError`: memory was refused.
    pub fn read(alloc: Global, names: &[&str]) -> Result<Sought, AllocError>
        ensures reasons { IfOk result (λ sought. sought.reasons.items ≡ reasons_sought 0 (map (λ name. name.now) names.now)) }
        ensures addresses { IfOk result (λ sought. sought.addresses.items ≡ addresses_sought 0 (map (λ name. name.now) names.now)) }
    {
        Ok(Sought {
            reasons: read_reasons(alloc, names)?,
            addresses: read_addresses(alloc, names)?,
            places: Outlets::new(),
        })
    }

    /// Marks what an event has that is sought, before it comes to an endpoint, and answers whether it is the first of
    /// something. Where nothing is sought that didn't come yet, it isn't looked at.
    #[inline]
    pub fn meet(&mut self, endpoint: &Endpoint, event: &Event) -> bool
        ensures first { result ≡ is_first self.old.reasons.items self.old.addresses.items (state_of endpoint.now) event.now }
        ensures reasons { self.new.reasons.items ≡ map (reason_met (foreseen (state_of endpoint.now) event.now)) self.old.reasons.items }
        ensures addresses { self.new.addresses.items
            ≡ map (address_met (passing_of (state_of endpoint.now) event.now.happening)) self.old.addresses.items }
    {
        let reasons = self.reasons.as_mut_slice();
        let mut is_first = meet_reasons(reasons, endpoint, event, &mut self.places);
        is_first |= meet_addresses(self.addresses.as_mut_slice(), endpoint, event);
        is_first
    }

    /// Whether an event had something that the name at this place asks for.
    pub fn is_met(&self, place: usize) -> bool
        ensures { result ≡ (list_any (λ k. k.is_met && nat_eq k.place place) self.now.reasons.items
            || list_any (λ k. k.is_met && nat_eq k.place place) self.now.addresses.items) }
    {
        is_reason_met(self.reasons.as_slice(), place)
            || is_address_met(self.addresses.as_slice(), place)
    }
}

/// Whether an event had a reason that the name at this place asks for.
fn is_reason_met(reasons: &[SoughtReason], place: usize) -> bool
    ensures { result ≡ list_any (λ k. k.is_met && nat_eq k.place place) reasons.now }
{
    reasons.iter().any(|k| k.is_met && k.place == place)
}

/// Whether an event had an address that the name at this place asks for.
fn is_address_met(addresses: &[SoughtAddress], place: usize) -> bool
    ensures { result ≡ list_any (λ k. k.is_met && nat_eq k.place place) addresses.now }
{
    addresses.iter().any(|k| k.is_met && k.place == place)
}

/// The reasons that names ask for.
fn read_reasons(alloc: Global, names: &[&str]) -> Result<Vec<SoughtReason>, AllocError>
    ensures { IfOk result (λ reasons. reasons.items ≡ reasons_sought 0 (map (λ name. name.now) names.now)) }
{
    let mut reasons = Vec::new(alloc);
    for place in 0..names.len() {
        put_reasons(&mut reasons, place, reasons_in(names[place]))?;
    }
    Ok(reasons)
}

/// Puts the reasons that the name at a place asks for.
fn put_reasons(
    reasons: &mut Vec<SoughtReason>,
    place: usize,
    asked: Reasons,
) -> Result<(), AllocError>
    ensures { OnOk result (reasons.new.items ≡ reasons.old.items ++ map (reason_at place) (numbers_in asked)) }
{
    match asked {
        Reasons::No => Ok(()),
        Reasons::One(number) => {
            reasons.push(reason_at(place, number))?;
            Ok(())
        }
        Reasons::Every => put_every_reason(reasons, place),
    }
}

/// Puts all reasons.
fn put_every_reason(reasons: &mut Vec<SoughtReason>, place: usize) -> Result<(), AllocError>
    ensures { OnOk result (reasons.new.items ≡ reasons.old.items ++ map (reason_at place) (numbers_from 1 40)) }
{
    for index in 0..REASONS {
        reasons.push(reason_at(place, index + 1))?;
    }
    Ok(())
}

/// A reason of which no event came yet.
fn reason_at(place: usize, number: u8) -> SoughtReason
    ensures { result ≡ reason_at place number }
{
    SoughtReason {
        number,
        place,
        is_met: false,
    }
}

/// The addresses that names ask for.
fn read_addresses(alloc: Global, names: &[&str]) -> Result<Vec<SoughtAddress>, AllocError>
    ensures { IfOk result (λ addresses. addresses.items ≡ addresses_sought 0 (map (λ name. name.now) names.now)) }
{
    let mut addresses = Vec::new(alloc);
    for place in 0..names.len() {
        put_addresses(&mut addresses, place, address_in(names[place]))?;
    }
    Ok(addresses)
}

/// Puts the address that the name at a place asks for, at each tap.
fn put_addresses(
    addresses: &mut Vec<SoughtAddress>,
    place: usize,
    asked: Option<Mac>,
) -> Result<(), AllocError>
    ensures { OnOk result (addresses.new.items ≡ addresses.old.items ++ addresses_at place asked) }
{
    match asked {
        Some(address) => put_at_taps(addresses, place, address),
        None => Ok(()),
    }
}

/// Puts an address at each tap.
fn put_at_taps(
    addresses: &mut Vec<SoughtAddress>,
    place: usize,
    address: Mac,
) -> Result<(), AllocError>
    ensures { OnOk result (addresses.new.items ≡ addresses.old.items ++ map (address_at place address) every_tap) }
{
    for index in 0..MOST_PORTS {
        addresses.push(address_at(place, address, Tap::Port(index + 1)))?;
    }
    addresses.push(address_at(place, address, Tap::Underlay))?;
    Ok(())
}

/// An address at a tap from which no event came yet.
fn address_at(place: usize, address: Mac, tap: Tap) -> SoughtAddress
    ensures { result ≡ address_at place address tap }
{
    SoughtAddress {
        address,
        tap,
        place,
        is_met: false,
    }
}

/// Marks the reasons that an event has, and answers whether it is the first with one.
#[inline]
fn meet_reasons(
    reasons: &mut [SoughtReason],
    endpoint: &Endpoint,
    event: &Event,
    places: &mut Outlets,
) -> bool
    ensures first { result ≡ list_any (is_new_reason (foreseen (state_of endpoint.now) event.now)) reasons.old }
    ensures met { reasons.new ≡ map (reason_met (foreseen (state_of endpoint.now) event.now)) reasons.old }
{
    if !is_any_open(reasons) {
        return false;
    }
    meet_open(reasons, endpoint, event, places)
}

/// The same, whatever came before. It's called and not laid in, so that runs which seek nothing don't pay for its room.
#[cold]
#[inline(never)]
fn meet_open(
    reasons: &mut [SoughtReason],
    endpoint: &Endpoint,
    event: &Event,
    places: &mut Outlets,
) -> bool
    ensures first { result ≡ list_any (is_new_reason (foreseen (state_of endpoint.now) event.now)) reasons.old }
    ensures met { reasons.new ≡ map (reason_met (foreseen (state_of endpoint.now) event.now)) reasons.old }
{
    match foreseen(endpoint, event, places) {
        Some(forwarding) => {
            let mut causes = [false; 256];
            mark_causes(&mut causes, endpoint, &forwarding, places.as_slice());
            mark_reasons(reasons, &causes)
        }
        None => false,
    }
}

/// Whether there is a reason of which no event came yet.
#[inline]
fn is_any_open(reasons: &[SoughtReason]) -> bool
    ensures { result ≡ list_any (λ k. not k.is_met) reasons.now }
{
    reasons.iter().any(|k| !k.is_met)
}

/// Marks the reasons that an event has by their numbers, and answers whether it is the first with one.
fn mark_reasons(reasons: &mut [SoughtReason], causes: &Causes) -> bool
    ensures first { result ≡ list_any (is_new_by (λ n. slice_index_or causes.now n false)) reasons.old }
    ensures met { reasons.new ≡ map (met_by (λ n. slice_index_or causes.now n false)) reasons.old }
{
    let mut is_first = false;
    for k in reasons.iter_mut() {
        if !k.is_met && is_marked(causes, k.number) {
            k.is_met = true;
            is_first = true;
        }
    }
    is_first
}

/// Marks the addresses that an event has, and answers whether it is the first with one.
#[inline]
fn meet_addresses(addresses: &mut [SoughtAddress], endpoint: &Endpoint, event: &Event) -> bool
    ensures first { result ≡ list_any (is_new_address (passing_of (state_of endpoint.now) event.now.happening)) addresses.old }
    ensures met { addresses.new ≡ map (address_met (passing_of (state_of endpoint.now) event.now.happening)) addresses.old }
{
    if !is_any_away(addresses) {
        return false;
    }
    meet_away(addresses, endpoint, event)
}

/// The same, whatever came before; called and not laid in, as [`meet_open`] is.
#[cold]
#[inline(never)]
fn meet_away(addresses: &mut [SoughtAddress], endpoint: &Endpoint, event: &Event) -> bool
    ensures first { result ≡ list_any (is_new_address (passing_of (state_of endpoint.now) event.now.happening)) addresses.old }
    ensures met { addresses.new ≡ map (address_met (passing_of (state_of endpoint.now) event.now.happening)) addresses.old }
{
    match passing_of(endpoint, event) {
        Some(passing) => mark_addresses(addresses, &passing),
        None => false,
    }
}

/// Whether there is an address of which no event came yet.
#[inline]
fn is_any_away(addresses: &[SoughtAddress]) -> bool
    ensures { result ≡ list_any (λ k. not k.is_met) addresses.now }
{
    addresses.iter().any(|k| !k.is_met)
}

/// Marks the addresses that a frame has, and answers whether it is the first with one.
fn mark_addresses(addresses: &mut [SoughtAddress], passing: &Passing) -> bool
    ensures first { result ≡ list_any (is_new_address (Some passing.now)) addresses.old }
    ensures met { addresses.new ≡ map (address_met (Some passing.now)) addresses.old }
{
    let mut is_first = false;
    for k in addresses.iter_mut() {
        if !k.is_met && is_with(passing, k) {
            k.is_met = true;
            is_first = true;
        }
    }
    is_first
}

/// Whether a frame came at a tap, from an address or to it.
fn is_with(passing: &Passing, sought: &SoughtAddress) -> bool
    ensures { result ≡ is_with passing.now sought.now }
{
    same_tap(sought.tap, passing.tap)
        && (same_address(sought.address, passing.destination)
            || same_address(sought.address, passing.source))
}
