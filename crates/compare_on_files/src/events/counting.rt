//! How often an event was sent at a place.
ghost use Rattle.std.specs.Prelude.{◌≡◌, ◌<◌, ◌^◌, length};
ghost use Rattle.compare_on_files.specs.Events.{count_at, is_tap};

use part_lines::Places;
use timeline::Tap;

/// How many of some places are this one.
pub(crate) fn count_at(places: Places<'_>, tap: Tap) -> u64
    requires { length places < 2 ^ 64 }
    ensures { result ≡ count_at tap places.entry }
{
    let mut left = places;
    let mut count = 0;
    while let Some(place) = left.next_place() {
        if is_tap(tap, place) {
            count += 1;
        }
    }
    count
}

/// Whether two places are one.
fn is_tap(one: Tap, other: Tap) -> bool
    ensures { result ≡ is_tap one other }
{
    match (one, other) {
        (Tap::Port(port), Tap::Port(other_port)) => port == other_port,
        (Tap::Underlay, Tap::Underlay) => true,
        (Tap::Port(_), Tap::Underlay) | (Tap::Underlay, Tap::Port(_)) => false,
    }
}
