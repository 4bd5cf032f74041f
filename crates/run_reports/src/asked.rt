//! The names of the events that are asked for.
ghost use Rattle.std.specs.Prelude.{◌≡◌, ◌||◌, ◌<◌, Some, ℕ, Bool, All, IfOk, length, map, slice_index_or, nat_lt};
ghost use Rattle.std.specs.List.{list_any};
ghost use Rattle.std.specs.List.Sorted.{IsNonDecreasingBy};
ghost use Rattle.timeline.specs.Words.{source_of};
ghost use Rattle.run_reports.specs.Report.{found_behind, is_asked};
ghost use Rattle.run_reports.specs.Reading.{FitsSource, is_its, is_its_at, asked_in};

use crate::reading::{Name, is_same, name_in};
use std::alloc::{AllocError, Global};
use std::marker::Model;
use timeline::{Event, Source, Tap};

/// A name at its place in the list of all.
#[derive(Clone, Copy)]
pub struct Asked {
    pub name: Name,
    pub place: usize,
}

/// The names that are asked for, seen by contracts as their texts.
#[derive(Drop)]
pub struct AskedNames<'n, 'a> {
    texts: &'n [&'a str],
    /// Those of the texts that name an event, in the order of their numbers.
    names: Vec<Asked>,
}

impl<'n, 'a> Model for AskedNames<'n, 'a> {
    ghost use Rattle.std.specs.Prelude.{List, ℕ, map};
    ghost use Rattle.run_reports.specs.Reading.{AreNamesOf};

    ghost Value = { List (List ℕ) };

    ghost view = { λ a. map (λ text. text.now) a.texts.now };

    ghost invariant = { λ a. AreNamesOf (map (λ text. text.now) a.texts.now) a.names.items };
}

impl<'n, 'a> AskedNames<'n, 'a> {
    /// Reads these texts. `AllocError`: memory was refused.
    pub fn read(alloc: Global, texts: &'n [&'a str]) -> Result<AskedNames<'n, 'a>, AllocError>
        ensures { IfOk result (λ names. names ≡ map (λ text. text.now) texts.entry.now) }
    {
        let mut names = read_names(alloc, texts)?;
        names.sort_unstable_by_key(
            |asked|
                ensures { result ≡ asked.now.name.number }
            { asked.name.number },
        );
        Ok(AskedNames { texts, names })
    }

    /// Marks those of the texts that name an event as found, and answers whether one does.
    #[inline]
    pub fn mark(&self, found: &mut [bool], number: u64, event: &Event) -> bool
        requires { length found.old ≡ length self.now }
        ensures asked { result ≡ is_asked number event.now self.now }
        ensures found { found.new ≡ found_behind number event.now self.now found.old }
    {
        let mut is_asked = mark_named(&self.names, found, None, number);
        is_asked |= mark_named(&self.names, found, source_of(event), event.number);
        is_asked
    }
}

/// Where the number of an event in its source counts.
fn source_of(event: &Event) -> Option<Source>
    ensures source { result ≡ Some (source_of event.now.happening) }
    ensures fits { FitsSource result }
{
    match event.source() {
        Source::Changes => Some(Source::Changes),
        Source::Tap(Tap::Underlay) => Some(Source::Tap(Tap::Underlay)),
        Source::Tap(Tap::Port(port)) => Some(Source::Tap(Tap::Port(port))),
    }
}

/// The names among these texts, in their order.
fn read_names(alloc: Global, texts: &[&str]) -> Result<Vec<Asked>, AllocError>
    ensures { IfOk result (λ names. names.items ≡ asked_in 0 (map (λ text. text.now) texts.now)) }
{
    let mut names = Vec::new(alloc);
    for place in 0..texts.len() {
        if let Some(name) = name_in(texts[place].as_bytes()) {
            names.push(Asked { name, place })?;
        }
    }
    Ok(names)
}

/// Marks the names with this number of this source, or of the run, and answers whether there is one. A run that is asked for none
/// pays no call for it.
#[inline(always)]
fn mark_named(names: &[Asked], found: &mut [bool], source: Option<Source>, number: u64) -> bool
    requires rising { IsNonDecreasingBy (λ (a : Asked). a.name.number) names.now }
    requires places { All (λ (a : Asked). a.place < length found.old) names.now }
    ensures any { result ≡ list_any (is_its source number) names.now }
    ensures each { (k : ℕ) (b : Bool)
        → slice_index_or found.new k b ≡ (list_any (is_its_at source number k) names.now || slice_index_or found.old k b) }
{
    !names.is_empty() && mark_some(names, found, source, number)
}

/// The same of one name or more.
#[inline(never)]
fn mark_some(names: &[Asked], found: &mut [bool], source: Option<Source>, number: u64) -> bool
    requires rising { IsNonDecreasingBy (λ (a : Asked). a.name.number) names.now }
    requires places { All (λ (a : Asked). a.place < length found.old) names.now }
    ensures any { result ≡ list_any (is_its source number) names.now }
    ensures each { (k : ℕ) (b : Bool)
        → slice_index_or found.new k b ≡ (list_any (is_its_at source number k) names.now || slice_index_or found.old k b) }
{
    let mut is_there = false;
    let mut at = names.partition_point(
        |asked|
            ensures { result ≡ nat_lt asked.now.name.number number }
        { asked.name.number < number },
    );
    while at < names.len() && names[at].name.number == number {
        if is_same(&names[at].name.source, &source) {
            found[names[at].place] = true;
            is_there = true;
        }
        at += 1;
    }
    is_there
}
