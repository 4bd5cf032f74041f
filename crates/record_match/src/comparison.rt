//! Two captures, compared as their records come.
ghost use Rattle.std.specs.Prelude.{◌≡◌, ◌≤◌, ◌<◌, ◌+◌, ◌^◌, ℕ, List, [], ◌∷◌, ◌++◌};
ghost use Rattle.std.specs.Prelude.{IfOk, if◌then◌else◌, is_some, length, false, true};
ghost use Rattle.std.specs.List.{FoldsTo};
ghost use Rattle.record_match.specs.Compared.{AreBefore, IsCompared, facts_of, logged};
ghost use Rattle.record_match.specs.Kept.{told};
ghost use Rattle.record_match.specs.Match.{Record};
ghost use Rattle.record_match.specs.Settled.{Fact, fact_by, gone_alone, held_alone};
ghost use Rattle.record_match.specs.Window.{at_moment, has_room};

use crate::cut::Cut;
use crate::onlooker::Onlooker;
use crate::seen::Seen;
use crate::window::Window;
use std::alloc::{AllocError, Global};
use std::marker::Model;

/// Two captures, compared as their records come, each told in turn at its moment: of several at one moment those that were sent
/// first. It counts them, how many of them are both, and how many of each are cut.
#[derive(Drop)]
pub struct Comparison {
    window: Window,
    sent: u64,
    received: u64,
    both: u64,
    cut: Cut,
}

impl Model for Comparison {
    ghost use Rattle.std.specs.Prelude.{◌≤◌};
    ghost use Rattle.record_match.specs.Compared.{Counted};

    ghost Value = { Counted };

    ghost view = { λ c. record { window = c.window; sent = c.sent; received = c.received; both = c.both; cut = c.cut } };

    ghost invariant = { λ c. (c.cut.sent ≤ c.sent) × (c.cut.received ≤ c.received) };
}

impl Comparison {
    /// One of no records, for those that are received at most so many nanoseconds later. It takes all memory that it needs, and
    /// `AllocError` says that there was none.
    pub fn new(alloc: Global, within: u64) -> Result<Comparison, AllocError>
        ensures within { IfOk result (λ c. c.window.within ≡ within) }
        ensures told { IfOk result (λ c. IsCompared (logged c []) [] [] 0) }
    {
        let window = Window::new(alloc, within)?;
        Ok(Comparison {
            window,
            sent: 0,
            received: 0,
            both: 0,
            cut: Cut {
                sent: 0,
                received: 0,
            },
        })
    }

    /// Takes the next record that was sent. Says whether there was room for it: where there is none, it isn't counted.
    pub fn send<W: Onlooker>(&mut self, sent: &Seen, onlooker: &mut W) -> bool
        requires { self.old.sent + 1 < 2 ^ 64 }
        ensures room { result ≡ has_room (at_moment sent.now.moment self.old.window) (length sent.now.octets.now) }
        ensures told { (S R : List Record) (now : ℕ) (log : List Fact) → IsCompared (logged self.old log) S R now
            → now ≤ sent.now.moment → AreBefore sent.now.moment R → result ≡ true
            → IsCompared (logged self.new (log ++ gone_alone sent.now.moment self.old.window)) (S ++ told sent.now ∷ []) R
            sent.now.moment }
        ensures full { (S R : List Record) (now : ℕ) (log : List Fact) → IsCompared (logged self.old log) S R now
            → now ≤ sent.now.moment → result ≡ false
            → IsCompared (logged self.new (log ++ gone_alone sent.now.moment self.old.window)) S R sent.now.moment }
        ensures within { self.new.window.within ≡ self.old.window.within }
        ensures seen { FoldsTo W.sees onlooker.old (gone_alone sent.now.moment self.old.window) onlooker.new }
    {
        let has_room = self.window.send(sent, onlooker);
        let one = one_if(has_room);
        self.sent += one;
        self.cut.sent += sent.if_cut(one);
        has_room
    }

    /// Takes the next record that was received.
    pub fn receive<W: Onlooker>(&mut self, received: &Seen, onlooker: &mut W)
        requires received { self.old.received + 1 < 2 ^ 64 }
        requires both { self.old.both + 1 < 2 ^ 64 }
        ensures count { self.new.received ≡ self.old.received + 1 }
        ensures within { self.new.window.within ≡ self.old.window.within }
        ensures told { (S R : List Record) (now : ℕ) (log : List Fact) → IsCompared (logged self.old log) S R now
            → now ≤ received.now.moment
            → IsCompared (logged self.new (log ++ facts_of self.old (told received.now))) S (R ++ told received.now ∷ [])
            received.now.moment }
        ensures seen { FoldsTo W.sees onlooker.old (facts_of self.old (told received.now)) onlooker.new }
    {
        let sent = self.window.receive(received, onlooker);
        self.received += 1;
        self.cut.received += received.if_cut(1);
        self.both += one_if_some(sent);
        tell_received(onlooker, sent, self.received, received);
    }

    /// Lets all records go that may still be received, and tells those that weren't: nothing more comes. What is counted stays.
    pub fn finish<W: Onlooker>(&mut self, onlooker: &mut W)
        ensures comparison { self.new ≡ record self.old { window = record self.old.window { held = [] } } }
        ensures seen { FoldsTo W.sees onlooker.old (held_alone self.old.window.records self.old.window.held) onlooker.new }
    {
        self.window.finish(onlooker);
    }

    /// How many records were sent.
    pub fn sent(&self) -> u64
        ensures { result ≡ self.now.sent }
    {
        self.sent
    }

    /// How many were received.
    pub fn received(&self) -> u64
        ensures { result ≡ self.now.received }
    {
        self.received
    }

    /// How many are both.
    pub fn both(&self) -> u64
        ensures { result ≡ self.now.both }
    {
        self.both
    }

    /// How many of each are cut.
    pub fn cut(&self) -> Cut
        ensures { result ≡ self.now.cut }
    {
        self.cut
    }
}

/// 1 for true.
fn one_if(holds: bool) -> u64
    ensures value { result ≡ (if holds then 1 else 0) }
    ensures bound { result ≤ 1 }
{
    if holds { 1 } else { 0 }
}

/// Tells what a record that is received is, by the moment when it was sent.
fn tell_received<W: Onlooker>(onlooker: &mut W, sent: Option<u64>, number: u64, received: &Seen)
    ensures { W.sees onlooker.old (fact_by number (told received.now) sent) onlooker.new }
{
    match sent {
        Some(moment) => onlooker.see_both(moment, number, received),
        None => onlooker.see_received(number, received),
    }
}

/// 1 where there is a moment.
fn one_if_some(moment: Option<u64>) -> u64
    ensures value { result ≡ (if is_some moment then 1 else 0) }
    ensures bound { result ≤ 1 }
{
    match moment {
        Some(_) => 1,
        None => 0,
    }
}
