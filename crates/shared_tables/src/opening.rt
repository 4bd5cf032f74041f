//! What new tables begin with.
ghost use Rattle.std.specs.Prelude.{IfOk, All};
ghost use Rattle.filter_db.specs.Segment.{IsRule, AreForDistinctVids};
ghost use Rattle.shared_tables.specs.Opened.{AreOpened};

use crate::share::{self, Share, VIDS};
use filter_db::TableRule;
use std::alloc::{AllocError, Global};

/// Empty shares for these rules.
pub fn open_shares(alloc: Global, rules: &[TableRule]) -> Result<Vec<Option<Share>>, AllocError>
    requires distinct { AreForDistinctVids rules.now }
    requires in_range { All IsRule rules.now }
    ensures { IfOk result (λ v. AreOpened rules.now v.items) }
{
    let mut shares = vec![in alloc; None; VIDS]?;
    for rule in rules {
        share::open_share(&mut shares, rule);
    }
    Ok(shares)
}
