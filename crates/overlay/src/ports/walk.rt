//! A walk over the members of a segment.
ghost use Rattle.std.specs.Prelude.{◌≡◌, ◌≤◌, ◌<◌, ◌+◌, ◌*◌, ◌/◌, [], ◌∷◌, IfNone, IfSome, ℕ, false, length, true};
ghost use Rattle.overlay.specs.Bits.{is_member_in};
ghost use Rattle.overlay.specs.Walk.{IsAt, members_above};

use crate::ports::words;
use std::marker::Model;
use wire::ether::Vid;

/// The member ports of a segment, rising, of which each is told once: a walk asks for no other port.
#[derive(Debug, Drop)]
pub struct Walk<'s> {
    words: &'s [u64],
    vid: Vid,
    /// No member above this number is told.
    ports: u8,
    position: Position,
}

/// How far a walk came.
#[derive(Clone, Copy, Debug)]
struct Position {
    /// The port that was told last, 0 before the first.
    after: u8,
    /// The word of the walk: that of so many times 64 ports on.
    column: u8,
    /// What is left of that word.
    rest: u64,
}

impl<'s> Model for Walk<'s> {
    ghost use Rattle.std.specs.Prelude.{◌≤◌, ◌<◌, ◌+◌, ◌*◌, ◌/◌, ℕ, List, length};
    ghost use Rattle.overlay.specs.Walk.{IsAt, members_above};

    ghost Value = { List ℕ };

    ghost view = { λ w. members_above w.words.now w.vid w.ports w.position.after };

    ghost invariant = { λ w. IsAt w.words.now w.vid w.position × (w.position.column ≤ w.ports / 64) × (w.position.after ≤ w.ports)
        × ((w.ports / 64 + 1) * 8192 ≤ length w.words.now) };
}

impl<'s> Walk<'s> {
    /// The walk over the members of a segment, of so many ports.
    #[inline(always)]
    pub(crate) fn new(words: &'s [u64], vid: Vid, ports: u8) -> Walk<'s>
        requires { (ports / 64 + 1) * 8192 ≤ length words.now }
        ensures { result ≡ members_above words.now vid ports 0 }
    {
        Walk {
            words,
            vid,
            ports,
            position: Position {
                after: 0,
                column: 0,
                rest: words::members_word(words, vid, 0) & !1,
            },
        }
    }

    /// The next member, where one is left.
    #[inline(always)]
    pub fn next(&mut self) -> Option<u8>
        ensures some { IfSome result (λ port. self.old ≡ port ∷ self.new) }
        ensures none { IfNone result (self.old ≡ []) }
    {
        let next = step(self.words, self.vid, self.ports, self.position)?;
        self.position = next;
        Some(next.after)
    }
}

/// A walk's position behind its next member, where one is left.
#[inline(always)]
fn step(words: &[u64], vid: Vid, ports: u8, position: Position) -> Option<Position>
    requires at { IsAt words.now vid position }
    requires column { position.column ≤ ports / 64 }
    requires fits { (ports / 64 + 1) * 8192 ≤ length words.now }
    ensures at { IfSome result (λ next. IsAt words.now vid next × (next.column ≤ ports / 64)) }
    ensures found { IfSome result (λ next. (position.after < next.after) × (next.after ≤ ports)
        × (is_member_in words.now vid next.after ≡ true)) }
    ensures least { IfSome result (λ next. (p : ℕ) → position.after < p → p < next.after → is_member_in words.now vid p ≡ false) }
    ensures none { IfNone result ((p : ℕ) → position.after < p → p ≤ ports → is_member_in words.now vid p ≡ false) }
{
    let at = refilled(words, vid, ports, position);
    if at.rest == 0 {
        return None;
    }
    let bit = at.rest.trailing_zeros();
    let port = at.column * 64 + bit as u8;
    if port > ports {
        return None;
    }
    Some(Position {
        after: port,
        column: at.column,
        rest: at.rest & !(1 << bit),
    })
}

/// A walk's position with the next word that isn't 0, where nothing is left of its own.
#[inline(always)]
fn refilled(words: &[u64], vid: Vid, ports: u8, position: Position) -> Position
    requires at { IsAt words.now vid position }
    requires column { position.column ≤ ports / 64 }
    requires fits { (ports / 64 + 1) * 8192 ≤ length words.now }
    ensures at { IsAt words.now vid result }
    ensures after { result.after ≡ position.after }
    ensures column { result.column ≤ ports / 64 }
    ensures empty { result.rest ≡ 0 → (p : ℕ) → position.after < p → p ≤ ports → is_member_in words.now vid p ≡ false }
{
    if position.rest != 0 {
        return position;
    }
    for column in position.column + 1..ports / 64 + 1 {
        let rest = words::members_word(words, vid, column);
        if rest != 0 {
            return Position {
                after: position.after,
                column,
                rest,
            };
        }
    }
    position
}
