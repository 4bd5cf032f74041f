//! Lists of tables.
//!
//! A row says how long the paths of its tables may be (`ListRow::longest`), so that a segment's have room for a list of tables
//! below them and a path has still 40 octets at most.
ghost use Rattle.std.specs.Prelude.{◌≡◌, ◌+◌, ◌≤◌, ◌<◌, ℕ, List, [], length, map, vec_len, IfOk};
ghost use Rattle.toml.specs.View.{view};
ghost use Rattle.config_text.specs.Fault.{Meaning, Gives, GivesAs};
ghost use Rattle.config_text.specs.Table.{FitNumbers, Place, each};

use crate::fault::SettingsFault;
use crate::reader::Reader;
use std::alloc::Global;
use toml::Value;

/// What a table of a list means, behind those before it.
pub trait ListRow {
    type Out: Drop;

    ghost use Rattle.config_text.specs.Reader.{place_of};

    /// What a table means, unless memory is refused.
    ghost means: { Self → List Self.Out → Place → Meaning Self.Out };

    /// The most octets that stand before a key in its path; 22 leave room for a key of 11.
    ghost longest: { Self → ℕ } = { λ _. 22 };

    fn read(&self, earlier: &[Self::Out], at: &Reader) -> Result<Self::Out, SettingsFault>
        requires few { length earlier.now < 100000 }
        requires short { length (place_of at.now).prefix ≤ longest self.now }
        ensures { Gives result (means self.now earlier.now (place_of at.now)) };
}

/// The tables of a list, in order, each read behind those before it. What stands before their keys is no longer than
/// their row takes, and leaves room for a key of 11 octets. The first fault is the answer: `BadValue` of an item's own
/// path, as `port.2`, where it is no table, or what its row answers. `OutOfMemory`: memory was refused.
pub fn read_rows<R: ListRow>(
    alloc: Global,
    row: &R,
    name: &str,
    items: &[Value],
) -> Result<Vec<R::Out>, SettingsFault>
    requires short { FitNumbers (R.longest row.now) name.now (length items.now) }
    requires room { R.longest row.now ≤ 22 }
    requires few { length items.now ≤ 100000 }
    ensures value { GivesAs (λ v. v.items) result (each (R.means row.now) name.now [] (map view items.now)) }
    ensures len { IfOk result (λ v. vec_len v ≡ length items.now) }
{
    let mut rows = Vec::new(alloc);
    for (i, value) in items.iter().enumerate() {
        let at = Reader::row(name, i as u32 + 1, value)?;
        rows.push(row.read(rows.as_slice(), &at)?)?;
    }
    Ok(rows)
}
