//! The titles of networks of which the same is told.
ghost use Rattle.std.specs.Prelude.{◌≡◌, ◌++◌, map, OnOk};
ghost use Rattle.fabric_grid.specs.Names.{few, listed, more_than, others};

use crate::names::put_number;
use std::alloc::AllocError;

/// How many are told by their titles.
const MOST: usize = 4;

/// Puts titles, the first four and how many more there are: `vxlan 5000, vxlan 5001, vxlan 5002, vxlan 5003 and 38 more`.
pub fn put_few(text: &mut Vec<u8>, titles: &[&[u8]]) -> Result<(), AllocError>
    ensures { OnOk result (text.new.items ≡ text.old.items ++ few (map (λ t. t.now) titles.now)) }
{
    let first = titles.len().min(MOST);
    put_listed(text, &titles[..first])?;
    put_more(text, titles.len())
}

/// Puts titles, with a comma between two.
fn put_listed(text: &mut Vec<u8>, titles: &[&[u8]]) -> Result<(), AllocError>
    ensures { OnOk result (text.new.items ≡ text.old.items ++ listed (map (λ t. t.now) titles.now)) }
{
    match titles {
        [] => Ok(()),
        [first, others @ ..] => {
            text.extend_from_slice(first)?;
            put_others(text, others)
        }
    }
}

/// Puts titles, each behind a comma.
fn put_others(text: &mut Vec<u8>, titles: &[&[u8]]) -> Result<(), AllocError>
    ensures { OnOk result (text.new.items ≡ text.old.items ++ others (map (λ t. t.now) titles.now)) }
{
    for title in titles {
        text.extend_from_slice(b", ")?;
        text.extend_from_slice(title)?;
    }
    Ok(())
}

/// Puts how many more there are of so many.
fn put_more(text: &mut Vec<u8>, titles: usize) -> Result<(), AllocError>
    ensures { OnOk result (text.new.items ≡ text.old.items ++ more_than MOST titles) }
{
    if titles <= MOST {
        return Ok(());
    }
    text.extend_from_slice(b" and ")?;
    put_number(text, titles - MOST)?;
    text.extend_from_slice(b" more")
}
