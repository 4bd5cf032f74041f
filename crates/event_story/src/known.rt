//! Where the destination of a frame stands, or stood.
ghost use Rattle.std.specs.Prelude.{◌≡◌};
ghost use Rattle.event_story.specs.Bridge.{dead_fact, known_fact, stood_fact};

use crate::fact::Fact;
use filter_db::Entry;

/// Where the destination stands, if it isn't a group's.
pub(crate) fn known_fact(group: bool, stood: Fact) -> Fact
    ensures { result ≡ known_fact group stood }
{
    if group { Fact::ToGroup } else { stood }
}

/// What stands for it in a table of this ageing, in nanoseconds, or stood when the last event was done with.
pub(crate) fn stood_fact(now: u64, span: u64, before: Option<Entry>, stood: Option<Entry>) -> Fact
    ensures { result ≡ stood_fact now span before stood }
{
    match (stood, before) {
        (None, Some(entry)) => dead_fact(now, span, entry, entry.last),
        _ => Fact::Known { stood },
    }
}

/// That an entry is dead from the moment on that is its ageing behind that of its last sighting.
fn dead_fact(now: u64, span: u64, entry: Entry, last: Option<u64>) -> Fact
    ensures { result ≡ dead_fact now span entry last }
{
    match last {
        None => Fact::Known { stood: None },
        Some(last) => match last.checked_add(span) {
            Some(since) if since <= now => Fact::Dead {
                stood: entry,
                since,
            },
            _ => Fact::Known { stood: None },
        },
    }
}
