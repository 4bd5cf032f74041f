//! What is asked for of two captures.
ghost use Rattle.std.specs.Prelude.{◌≡◌, ◌/◌, if◌then◌else◌, option_map, None, Some};
ghost use Rattle.compare_reports.specs.Told.{table_by};

use crate::tables::TableBy;
use record_match::Clock;
use timeline::Tap;

/// What is asked for of two captures.
#[derive(Clone, Copy)]
pub struct Asked {
    /// The place where both were captured, where it is one of several.
    pub at: Option<Tap>,
    /// The clock by which they are compared.
    pub clock: Clock,
    /// Whether what is of one capture alone is listed.
    pub lists: bool,
    pub table: Option<TableBy>,
    /// How much the clock of delays is ahead, in nanoseconds.
    pub ahead: u64,
}

impl Asked {
    /// What words ask for, of captures on a clock that stand for themselves. Where that is shifted, a record may be received as much
    /// earlier as later: so much is the clock of delays ahead.
    pub fn of(clock: Clock, is_shifted: bool, lists: bool, by: Option<&str>) -> Asked
        ensures { result ≡ record {
          at = None;
          clock = clock;
          lists = lists;
          table = table_by (option_map (λ name. name.now) by.entry);
          ahead = if is_shifted then clock.within / 2 else 0;
        } }
    {
        Asked {
            at: None,
            clock,
            lists,
            table: table_by(by),
            ahead: if is_shifted { clock.within / 2 } else { 0 },
        }
    }

    /// The same of a place.
    pub fn at(self, tap: Tap) -> Asked
        ensures { result ≡ record self { at = Some tap } }
    {
        Asked {
            at: Some(tap),
            ..self
        }
    }
}

/// The table that a word asks for.
fn table_by(by: Option<&str>) -> Option<TableBy>
    ensures { result ≡ table_by (option_map (λ name. name.now) by.entry) }
{
    match by {
        Some(name) => TableBy::of(name),
        None => None,
    }
}
