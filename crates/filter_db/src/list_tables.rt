//! The tables of all segments, each a list.
ghost use Rattle.std.specs.Prelude.{◌≡◌, ◌<◌, ℕ, None, IfOk, All, length};
ghost use Rattle.filter_db.specs.Segment.{IsRule, AreForDistinctVids, new_segments};
ghost use Rattle.filter_db.specs.Database.{slot};

use crate::table::Table;
use crate::{Learned, NotThere, Place, TableFull, TableRule, Tables};
use std::alloc::{AllocError, Global};
use std::marker::Model;
use wire::ether::{Mac, Vid};

/// As many as there are values of 12 bits.
const VIDS: usize = 4096;

/// The tables of all segments, each a list with room for its limit of entries. No call but `open` takes memory.
#[derive(Drop)]
pub struct ListTables {
    /// At the place of each VID the table of its segment.
    tables: Vec<Option<Table>>,
    moment: u64,
}

impl Model for ListTables {
    ghost use Rattle.std.specs.Prelude.{◌≡◌, length};
    ghost use Rattle.filter_db.specs.Database.{Database, database_code, database_at};

    ghost Value = { Database };

    ghost coded = { database_code };

    ghost view = { λ t. database_at t.moment t.tables.items };

    ghost invariant = { λ t. length t.tables.items ≡ 4096 };
}

/// Where the table of a VID stands.
fn slot_of(vid: Vid) -> usize
    ensures value { result ≡ vid }
    ensures in_range { result < 4096 }
{
    usize::from(vid.get())
}

/// As many places as there are VIDs, without a table.
fn no_tables(alloc: Global) -> Result<Vec<Option<Table>>, AllocError>
    ensures size { IfOk result (λ v. length v.items ≡ 4096) }
    ensures empty { IfOk result (λ v. (vid : ℕ) → slot v.items vid ≡ None) }
{
    let mut tables = Vec::with_capacity(alloc, VIDS)?;
    for _vid in 0..VIDS {
        tables.push_reserved(None);
    }
    Ok(tables)
}

impl ListTables {
    ghost use Rattle.filter_db.specs.Database.{segments_of};

    /// Empty tables, one for each rule, at moment 0. The rules are for distinct VIDs, with limits of 1 or more and
    /// ageings of 10 to 1,000,000 seconds. `AllocError`: a growth was refused.
    pub fn open(alloc: Global, rules: &[TableRule]) -> Result<ListTables, AllocError>
        requires distinct { AreForDistinctVids rules.now }
        requires in_range { All IsRule rules.now }
        ensures segments { IfOk result (λ t. segments_of t ≡ new_segments rules.now) }
        ensures moment { IfOk result (λ t. t.moment ≡ 0) }
    {
        let mut tables = no_tables(alloc)?;
        for rule in rules {
            let table = Table::open(alloc, *rule)?;
            tables[slot_of(rule.vid)] = Some(table);
        }
        Ok(ListTables { tables, moment: 0 })
    }
}

impl Tables for ListTables {
    ghost use Rattle.filter_db.specs.Database.{segments_of};

    ghost segments = { segments_of };

    ghost moment = { λ d. d.moment };

    ghost pool = { λ d. 0 };

    ghost calls = { λ d. 0 };

    ghost compared = { λ d. 0 };

    fn has(&self, vid: Vid) -> bool {
        self.tables[slot_of(vid)].is_some()
    }

    fn now(&self) -> u64 {
        self.moment
    }

    fn look(&mut self, vid: Vid, mac: Mac, now: u64) -> Option<Place> {
        self.tables[slot_of(vid)].as_ref().unwrap().look(mac, now)
    }

    fn learn(&mut self, vid: Vid, mac: Mac, place: Place, now: u64) -> Learned {
        self.moment = now;
        self.tables[slot_of(vid)]
            .as_mut()
            .unwrap()
            .learn(mac, place, now)
    }

    fn fix(&mut self, vid: Vid, mac: Mac, place: Place, now: u64) -> Result<(), TableFull> {
        self.moment = now;
        self.tables[slot_of(vid)]
            .as_mut()
            .unwrap()
            .fix(mac, place, now)
    }

    fn unfix(&mut self, vid: Vid, mac: Mac, now: u64) -> Result<(), NotThere> {
        self.moment = now;
        self.tables[slot_of(vid)].as_mut().unwrap().unfix(mac, now)
    }

    fn flush_place(&mut self, vid: Vid, place: Place, now: u64) {
        self.moment = now;
        self.tables[slot_of(vid)]
            .as_mut()
            .unwrap()
            .flush_place(place, now)
    }

    fn flush(&mut self, vid: Vid, now: u64) {
        self.moment = now;
        self.tables[slot_of(vid)].as_mut().unwrap().flush(now)
    }

    fn set_ageing(&mut self, vid: Vid, seconds: u32, now: u64) {
        self.moment = now;
        self.tables[slot_of(vid)]
            .as_mut()
            .unwrap()
            .set_ageing(seconds, now)
    }

    fn live(&mut self, vid: Vid, now: u64) -> u32 {
        self.moment = now;
        self.tables[slot_of(vid)].as_mut().unwrap().live(now)
    }

    ghost use Rattle.filter_db.specs.Ageing as ageing;

    ghost settled = { ageing.settled };
}
