//! A record that was fetched, taken.
ghost use Rattle.std.specs.Prelude.{◌≡◌, ◌≤◌, ◌<◌, ◌+◌, ◌-◌, ◌^◌, ◌++◌, ◌∷◌, [], ℕ, IsErr, IsOk, IsSome, List, Some, option_map};
ghost use Rattle.pcap.specs.Record.{Record as ARecord};
ghost use Rattle.pcap.specs.Source.{lent};
ghost use Rattle.std.specs.List.{FoldsTo};
ghost use Rattle.record_match.specs.Settled.{Fact};
ghost use Rattle.record_match.specs.Window.{at_moment};
ghost use Rattle.capture_compare.specs.Key.{as_key, told_by};
ghost use Rattle.capture_compare.specs.Clocked.{AreBefore, Seen as ASeen, seen_at};
ghost use Rattle.capture_compare.specs.Compared.{takes};
ghost use Rattle.capture_compare.specs.Sifted.{IsSifted, received_facts, sent_facts, sifting};
ghost use Rattle.capture_compare.specs.Turns.{unless_full};

use crate::aside::Aside;
use crate::carried::{Key, KeyRoom, Manner, missing_of};
use crate::fault::CompareFault;
use pcap::stream::{Input, Source};
use record_match::{Comparison, Onlooker, Seen};

/// Takes the record that was fetched of what was sent, with so many nanoseconds more at this moment, where it isn't left aside.
pub(crate) fn take_sent<R: Input, W: Onlooker>(
    source: &Source<R>,
    delay: u64,
    moment: u64,
    manner: &Manner,
    room: &mut KeyRoom,
    comparison: &mut Comparison,
    aside: &mut Aside,
    onlooker: &mut W,
) -> Result<(), CompareFault>
    requires lent { IsSome (lent source.now.standing) }
    requires sent { comparison.old.sent + 1 < 2 ^ 64 }
    requires aside { aside.old.sent + 1 < 2 ^ 64 }
    requires delay { delay ≤ moment }
    ensures answer { (r : ARecord) → lent source.now.standing ≡ Some r
        → result ≡ unless_full (takes (at_moment moment comparison.old.window) (told_by manner.now r)) (moment - delay) }
    ensures told { (r : ARecord) (S R : List ASeen) (now : ℕ) (log : List Fact) → lent source.now.standing ≡ Some r
        → IsSifted (sifting comparison.old log aside.old) S R now → now ≤ moment → AreBefore moment R → IsOk result
        → IsSifted (sifting comparison.new (log ++ sent_facts (told_by manner.now r) moment comparison.old.window) aside.new)
        (S ++ seen_at manner.now moment r ∷ []) R moment }
    ensures full { (r : ARecord) (S R : List ASeen) (now : ℕ) (log : List Fact) → lent source.now.standing ≡ Some r
        → IsSifted (sifting comparison.old log aside.old) S R now → now ≤ moment → IsErr result
        → IsSifted (sifting comparison.new (log ++ sent_facts (told_by manner.now r) moment comparison.old.window) aside.new)
        S R moment }
    ensures seen { (r : ARecord) → lent source.now.standing ≡ Some r
        → FoldsTo W.sees onlooker.old (sent_facts (told_by manner.now r) moment comparison.old.window) onlooker.new }
    ensures within { comparison.new.window.within ≡ comparison.old.window.within }
{
    let Some(key) = next_key(source, manner, room) else {
        aside.sent += 1;
        return Ok(());
    };
    let seen = Seen {
        moment,
        octets: key.octets,
        missing: key.missing,
    };
    if comparison.send(&seen, onlooker) {
        Ok(())
    } else {
        Err(CompareFault::Full(moment - delay))
    }
}

/// Takes the record that was fetched of what was received, at this moment, where it isn't left aside.
pub(crate) fn take_received<R: Input, W: Onlooker>(
    source: &Source<R>,
    moment: u64,
    manner: &Manner,
    room: &mut KeyRoom,
    comparison: &mut Comparison,
    aside: &mut Aside,
    onlooker: &mut W,
)
    requires lent { IsSome (lent source.now.standing) }
    requires received { comparison.old.received + 1 < 2 ^ 64 }
    requires both { comparison.old.both + 1 < 2 ^ 64 }
    requires aside { aside.old.received + 1 < 2 ^ 64 }
    ensures told { (r : ARecord) (S R : List ASeen) (now : ℕ) (log : List Fact) → lent source.now.standing ≡ Some r
        → IsSifted (sifting comparison.old log aside.old) S R now → now ≤ moment
        → IsSifted (sifting comparison.new (log ++ received_facts (told_by manner.now r) moment comparison.old) aside.new) S
        (R ++ seen_at manner.now moment r ∷ []) moment }
    ensures seen { (r : ARecord) → lent source.now.standing ≡ Some r
        → FoldsTo W.sees onlooker.old (received_facts (told_by manner.now r) moment comparison.old) onlooker.new }
    ensures within { comparison.new.window.within ≡ comparison.old.window.within }
{
    match next_key(source, manner, room) {
        Some(key) => {
            let seen = Seen {
                moment,
                octets: key.octets,
                missing: key.missing,
            };
            comparison.receive(&seen, onlooker)
        }
        None => aside.received += 1,
    }
}

/// The key of the record that was fetched; none where it is left aside.
fn next_key<'a, R: Input>(
    source: &'a Source<R>,
    manner: &Manner,
    room: &'a mut KeyRoom,
) -> Option<Key<'a>>
    requires { IsSome (lent source.now.standing) }
    ensures { (r : ARecord) → lent source.now.standing ≡ Some r
        → option_map as_key result ≡ told_by manner.now r }
{
    let Some(record) = source.head() else {
        unreachable!()
    };
    if manner.ignores(record.octets) {
        return None;
    }
    let missing = missing_of(record.original, record.octets);
    room.put(&manner.sameness, record.octets, missing);
    let octets = room.key(&manner.sameness, record.octets);
    Some(Key { octets, missing })
}
