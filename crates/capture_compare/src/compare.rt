//! The records of two captures in the order of their moments.
ghost use Rattle.std.specs.Prelude.{◌≡◌, ◌≤◌, ◌<◌, ◌+◌, ◌^◌, ℕ, List, [], Some, IfSome, OnOk};
ghost use Rattle.pcap.specs.Source.{New, Stream, ends_cut, most_left};
ghost use Rattle.record_match.specs.Compared.{IsCompared, logged};
ghost use Rattle.record_match.specs.Settled.{Shows};
ghost use Rattle.record_match.specs.declared.clock.Clock.{Clock as AClock};
ghost use Rattle.capture_compare.specs.Compared.{Tells, is_cut_in};
ghost use Rattle.capture_compare.specs.Sifted.{sifting};
ghost use Rattle.capture_compare.specs.Turns.{IsShown, MayReceive, MaySend, StepIsShown, turn_of};
ghost use Rattle.capture_compare.specs.declared.coming.Coming.{Coming as AComing};
ghost use Rattle.capture_compare.specs.declared.turn.Turn.TheVariants as turns;

use crate::aside::Aside;
use crate::carried::{KeyRoom, Manner};
use crate::coming::Coming;
use crate::fault::{CompareFault, Side};
use crate::take::{take_received, take_sent};
use crate::turn::{Turn, turn_of};
use pcap::stream::{Input, Source};
use record_match::{Clock, Comparison, Onlooker};

/// Compares two captures, those that were sent and those that were received, to their ends. Two records are the same where their
/// keys by the manner are, and those that the manner leaves aside are only counted, each with those of its side. Of several
/// records at one moment those that were sent come first.
///
/// At most 2^64 - 1 octets of each may come, counted as 262,144 by each read that the source may make: so all counts fit. The
/// comparison is one of no records, for those that are received so much later as the clock tells.
///
/// The faults are those of the captures, in the order in which their records come; or `Full` with the moment, where the window
/// has no room. The comparison has then what was compared before. A capture that ends within a record has no fault by that: its
/// source says so behind it, [`Source::is_cut`].
pub fn compare_captures<R: Input, W: Onlooker>(
    sent: &mut Source<R>,
    received: &mut Source<R>,
    clock: Clock,
    manner: &Manner,
    room: &mut KeyRoom,
    comparison: &mut Comparison,
    aside: &mut Aside,
    onlooker: &mut W,
) -> Result<(), CompareFault>
    requires new_sent { sent.old.standing ≡ New }
    requires new_received { received.old.standing ≡ New }
    requires most_sent { most_left sent.old < 2 ^ 64 }
    requires most_received { most_left received.old < 2 ^ 64 }
    requires sent_delay { clock.sent_delay ≤ 2000000000000000000 }
    requires received_delay { clock.received_delay ≤ 2000000000000000000 }
    requires none { IsCompared (logged comparison.old []) [] [] 0 }
    requires aside { aside.old ≡ record { sent = 0; received = 0 } }
    requires within { comparison.old.window.within ≡ clock.within }
    ensures told { Shows W.sees onlooker.old onlooker.new (λ log. (sent_text received_text : List ℕ)
        → sent.old.supply.rest ≡ Some sent_text → received.old.supply.rest ≡ Some received_text
        → Tells manner.now clock sent_text received_text (sifting comparison.new log aside.new) result) }
    ensures cut { OnOk result ((sent_text received_text : List ℕ)
        → sent.old.supply.rest ≡ Some sent_text → received.old.supply.rest ≡ Some received_text
        → (ends_cut sent.new.standing ≡ is_cut_in sent_text) × (ends_cut received.new.standing ≡ is_cut_in received_text)) }
{
    let mut sending = Coming::new(Side::Sent, clock.sent_delay);
    sending.open(sent)?;
    let mut receiving = Coming::new(Side::Received, clock.received_delay);
    receiving.open(received)?;
    'turns: loop {
        match turn_of(sending.next, receiving.next) {
            Turn::Done => return Ok(()),
            Turn::Sent(moment) => send_next(
                sent,
                &mut sending,
                moment,
                manner,
                room,
                comparison,
                aside,
                onlooker,
            )?,
            Turn::Received(moment) => receive_next(
                received,
                &mut receiving,
                moment,
                manner,
                room,
                comparison,
                aside,
                onlooker,
            )?,
        }
    }
}

/// Takes the next record that was sent, and fetches the one behind it.
fn send_next<R: Input, W: Onlooker>(
    source: &mut Source<R>,
    sending: &mut Coming,
    moment: u64,
    manner: &Manner,
    room: &mut KeyRoom,
    comparison: &mut Comparison,
    aside: &mut Aside,
    onlooker: &mut W,
) -> Result<(), CompareFault>
    requires may { MaySend source.old sending.old comparison.old aside.old moment }
    requires delay { sending.old.delay ≤ 2000000000000000000 }
    ensures told { (clock : AClock) (s0 r0 r : Stream) (receiving : AComing) (start : W)
        → IsShown W.sees start onlooker.old manner.now clock s0 r0 source.old r sending.old receiving comparison.old aside.old
        → turn_of sending.old.next receiving.next ≡ turns.Sent moment
        → StepIsShown W.sees start onlooker.new manner.now clock s0 r0 source.new r sending.new receiving comparison.new aside.new result }
    ensures less { OnOk result (IfSome sending.new.next (λ _. 16 + most_left source.new ≤ most_left source.old)) }
{
    take_sent(
        source,
        sending.delay(),
        moment,
        manner,
        room,
        comparison,
        aside,
        onlooker,
    )?;
    sending.fetch(source, moment)
}

/// Takes the next record that was received, and fetches the one behind it.
fn receive_next<R: Input, W: Onlooker>(
    source: &mut Source<R>,
    receiving: &mut Coming,
    moment: u64,
    manner: &Manner,
    room: &mut KeyRoom,
    comparison: &mut Comparison,
    aside: &mut Aside,
    onlooker: &mut W,
) -> Result<(), CompareFault>
    requires may { MayReceive source.old receiving.old comparison.old aside.old }
    requires delay { receiving.old.delay ≤ 2000000000000000000 }
    ensures told { (clock : AClock) (s0 r0 s : Stream) (sending : AComing) (start : W)
        → IsShown W.sees start onlooker.old manner.now clock s0 r0 s source.old sending receiving.old comparison.old aside.old
        → turn_of sending.next receiving.old.next ≡ turns.Received moment
        → StepIsShown W.sees start onlooker.new manner.now clock s0 r0 s source.new sending receiving.new comparison.new aside.new result }
    ensures less { OnOk result (IfSome receiving.new.next (λ _. 16 + most_left source.new ≤ most_left source.old)) }
{
    take_received(source, moment, manner, room, comparison, aside, onlooker);
    receiving.fetch(source, moment)
}
