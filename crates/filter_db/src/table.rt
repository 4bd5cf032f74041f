//! One segment's table as a list.
ghost use Rattle.std.specs.Prelude.{◌≡◌, ◌<◌, ◌↔◌, false, nat_le, IsTrue, IsErr, IsOk, IfOk, Option};
ghost use Rattle.std.specs.FinMap as map;
ghost use Rattle.filter_db.specs.Table.{stands, learned_as, is_full, has_fixed};
ghost use Rattle.filter_db.specs.Segment.{new_segment, aged, learn_in, fix_in, unfix_in, flush_place_in, flush_in, set_ageing_in};

use crate::entry::Entry;
use crate::{Learned, NotThere, Place, TableFull, TableRule, rows};
use std::alloc::{AllocError, Global};
use std::marker::Model;
use wire::ether::Mac;

/// One segment's table, seen by contracts as the segment. The memory of all its rows is taken when it is made.
#[derive(Drop)]
pub struct Table {
    limit: u32,
    ageing: u32,
    rows: Vec<(Mac, Entry)>,
}

impl Model for Table {
    ghost use Rattle.std.specs.Prelude.{vec_capacity};
    ghost use Rattle.filter_db.specs.Segment.{Segment};
    ghost use Rattle.filter_db.specs.Code.{segment_code};
    ghost use Rattle.filter_db.specs.Rows.{IsSound, segment_of};

    ghost Value = { Segment };

    ghost coded = { segment_code };

    ghost view = { λ t. segment_of t.limit t.ageing t.rows.items };

    ghost invariant = { λ t. IsSound t.limit t.ageing (vec_capacity t.rows) t.rows.items };
}

impl Table {
    /// An empty table with room for its limit of entries.
    pub fn open(alloc: Global, rule: TableRule) -> Result<Table, AllocError>
        requires { 0 < rule.ageing }
        ensures { IfOk result (λ t. t ≡ new_segment rule) }
    {
        Ok(Table {
            limit: rule.limit,
            ageing: rule.ageing,
            rows: Vec::with_capacity(alloc, rule.limit as usize)?,
        })
    }

    /// Where the station of an address stands at a moment.
    pub fn look(&self, mac: Mac, now: u64) -> Option<Place>
        ensures { result ≡ stands mac (aged now self.now).entries }
    {
        let entry = self.entry(mac)?;
        entry.is_live(self.ageing, now).then_some(entry.place)
    }

    /// Learns that an address stands at a place.
    pub fn learn(&mut self, mac: Mac, place: Place, now: u64) -> Learned
        ensures answer { let s = aged now self.old in
            result ≡ learned_as s.limit place mac s.entries }
        ensures after { self.new ≡ learn_in now place mac (aged now self.old) }
        ensures some_time { 0 < self.old.ageing }
    {
        self.age(now);
        let answer = match self.entry(mac) {
            Some(entry) if entry.is_fixed() => return Learned::Fixed,
            Some(entry) if entry.place.is_same(place) => Learned::Refreshed,
            Some(_) => Learned::Moved,
            None if self.is_at_limit() => return Learned::Full,
            None => Learned::New,
        };
        self.put(
            mac,
            Entry {
                place,
                last: Some(now),
            },
        );
        answer
    }

    /// Gives an address a fixed entry.
    pub fn fix(&mut self, mac: Mac, place: Place, now: u64) -> Result<(), TableFull>
        ensures full { let s = aged now self.old in
            IsErr result ↔ IsTrue (is_full s.limit mac s.entries) }
        ensures after { self.new ≡ fix_in place mac (aged now self.old) }
    {
        self.age(now);
        if self.is_full(mac) {
            return Err(TableFull);
        }
        self.put(mac, Entry { place, last: None });
        Ok(())
    }

    /// Takes the fixed entry of an address out.
    pub fn unfix(&mut self, mac: Mac, now: u64) -> Result<(), NotThere>
        ensures there { IsOk result ↔ IsTrue (has_fixed mac (aged now self.old).entries) }
        ensures after { self.new ≡ unfix_in mac (aged now self.old) }
    {
        self.age(now);
        match self.entry(mac) {
            Some(entry) if entry.is_fixed() => {
                self.remove(mac);
                Ok(())
            }
            _ => Err(NotThere),
        }
    }

    /// Forgets what was learned at a place.
    pub fn flush_place(&mut self, place: Place, now: u64)
        ensures { self.new ≡ flush_place_in place (aged now self.old) }
    {
        self.age(now);
        self.rows.retain(|row| !row.1.is_seen_at(place));
    }

    /// Forgets all that was learned.
    pub fn flush(&mut self, now: u64)
        ensures { self.new ≡ flush_in (aged now self.old) }
    {
        self.age(now);
        self.rows.retain(|row| row.1.is_fixed());
    }

    /// Sets the ageing, in seconds.
    pub fn set_ageing(&mut self, seconds: u32, now: u64)
        requires { 0 < seconds }
        ensures { self.new ≡ set_ageing_in now seconds (aged now self.old) }
    {
        self.age(now);
        self.ageing = seconds;
        self.age(now);
    }

    /// How many live entries it has.
    pub fn live(&mut self, now: u64) -> u32
        ensures count { result ≡ map.len self.new.entries }
        ensures after { self.new ≡ aged now self.old }
    {
        self.age(now);
        self.rows.len() as u32
    }

    /// Takes out what is dead at a moment.
    fn age(&mut self, now: u64)
        ensures after { self.new ≡ aged now self.old }
        ensures some_time { 0 < self.old.ageing }
    {
        let ageing = self.ageing;
        self.rows.retain(|row| row.1.is_live(ageing, now));
    }

    /// The entry of an address, dead or live.
    fn entry(&self, mac: Mac) -> Option<Entry>
        ensures { result ≡ map.get self.now.entries mac }
    {
        let index = rows::position(&self.rows, mac)?;
        Some(self.rows[index].1)
    }

    /// Whether there is no row for an address, nor room for another.
    fn is_full(&self, mac: Mac) -> bool
        ensures { result ≡ is_full self.now.limit mac self.now.entries }
    {
        self.entry(mac).is_none() && self.is_at_limit()
    }

    /// Whether it has as many entries as it may have.
    fn is_at_limit(&self) -> bool
        ensures { result ≡ nat_le self.now.limit (map.len self.now.entries) }
    {
        self.limit as usize <= self.rows.len()
    }

    /// Puts an entry in place of an earlier one of its address, or behind the others.
    fn put(&mut self, mac: Mac, entry: Entry)
        requires { is_full self.old.limit mac self.old.entries ≡ false }
        ensures { self.new ≡ record self.old { entries = map.insert self.old.entries mac entry } }
    {
        match rows::position(&self.rows, mac) {
            Some(index) => self.rows[index] = (mac, entry),
            None => self.rows.push_reserved((mac, entry)),
        }
    }

    /// Takes the entry of an address out.
    fn remove(&mut self, mac: Mac)
        ensures { self.new ≡ record self.old { entries = map.remove self.old.entries mac } }
    {
        self.rows.retain(|row| !rows::is_same(mac, row.0));
    }
}
