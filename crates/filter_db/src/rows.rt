//! Tables as lists of rows.
ghost use Rattle.std.specs.Prelude.{◌≡◌, position};
ghost use Rattle.std.specs.Ordering.{eq_by_cmp};
ghost use Rattle.filter_db.specs.Table.{mac_cmp};

use crate::entry::Entry;
use wire::ether::Mac;

/// Whether two addresses are one.
pub fn is_same(left: Mac, right: Mac) -> bool
    ensures { result ≡ eq_by_cmp mac_cmp left right }
{
    left == right
}

/// The index of the row of an address.
pub fn position(rows: &[(Mac, Entry)], mac: Mac) -> Option<usize>
    ensures { result ≡ position (λ row. eq_by_cmp mac_cmp mac row.0) rows.now }
{
    rows.iter().position(|row| is_same(mac, row.0))
}
