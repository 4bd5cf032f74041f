//! The part whose event comes next.
ghost use Rattle.std.specs.Prelude.{◌≡◌, ◌+◌, ℕ, List, length, slice_index_or};
ghost use Rattle.part_merge.specs.Coming.{OpenPart};
ghost use Rattle.part_merge.specs.Firsts.{FindsFirst};

use crate::coming::Coming;
use crate::part::Part;
use pcap::stream::Input;

/// The event that comes first: the place of its part, and its number.
#[derive(Clone, Copy)]
pub(crate) struct First {
    pub index: usize,
    pub number: u64,
}

/// The event of the least number, and of those of one number that of the first part; none where no part has an event.
pub(crate) fn find_first<R: Input>(parts: &[Part<R>]) -> Option<First>
    ensures { FindsFirst parts.now (length parts.now) result }
{
    let mut first = None;
    for (index, part) in parts.iter().enumerate() {
        first = earlier(first, index, part.coming());
    }
    first
}

/// The first of some events and of what comes in one part more, behind theirs.
fn earlier(first: Option<First>, index: usize, coming: Coming) -> Option<First>
    ensures { (parts : List OpenPart) → FindsFirst parts index first
        → ((s : OpenPart) → (slice_index_or parts index s).coming ≡ coming) → FindsFirst parts (index + 1) result }
{
    match (first, coming) {
        (None, Coming::Event(number)) => Some(First { index, number }),
        (Some(found), Coming::Event(number)) if number < found.number => {
            Some(First { index, number })
        }
        _ => first,
    }
}
