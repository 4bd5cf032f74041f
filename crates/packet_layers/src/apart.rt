//! A packet that is taken apart from both ends.
ghost use Rattle.std.specs.Prelude.{◌≡◌, ◌≤◌, ◌<◌, ◌+◌, [], ◌++◌, length};
ghost use Rattle.packet_layers.specs.Apart.{whole, split, put};

use crate::{Head, HeadKind, Span};
use arrayvec::ArrayVec;
use std::marker::Model;

/// What is taken off a packet so far. Five frames have at most 34 heads and 10 tails.
#[derive(Drop)]
pub(crate) struct Apart<'a> {
    /// From the front on.
    heads: ArrayVec<Head<'a>, 34>,
    /// What is left.
    payload: Span<'a>,
    /// From the payload on.
    tails: ArrayVec<Span<'a>, 10>,
}

impl<'a> Model for Apart<'a> {
    ghost use Rattle.std.specs.Prelude.{◌+◌, ◌<◌, ◌^◌, length};
    ghost use Rattle.packet_layers.specs.Apart.{Apart};

    ghost Value = { Apart };

    ghost view = { λ a. record { heads = a.heads.items; payload = a.payload; tails = a.tails.items } };

    ghost invariant = { λ a. a.payload.place + length a.payload.octets < 2 ^ 64 };
}

impl<'a> Apart<'a> {
    /// Of no octets.
    pub(crate) fn empty() -> Apart<'a>
        ensures { result ≡ whole [] }
    {
        Apart {
            heads: ArrayVec::new(),
            payload: Span::new(0, &[]),
            tails: ArrayVec::new(),
        }
    }

    /// Begins anew, with a packet of which nothing is taken off.
    pub(crate) fn begin(&mut self, octets: &'a [u8])
        ensures { self.new ≡ whole octets.now }
    {
        self.heads.clear();
        self.payload = Span::new(0, octets);
        self.tails.clear();
    }

    /// The heads, from the front on.
    pub(crate) fn heads(&self) -> &[Head<'a>]
        ensures heads { result.now ≡ self.now.heads }
        ensures few { length result.now ≤ 34 }
    {
        self.heads.as_slice()
    }

    /// What is left.
    pub(crate) fn payload(&self) -> &Span<'a>
        ensures { result.now ≡ self.now.payload }
    {
        &self.payload
    }

    /// The tails, from the payload on.
    pub(crate) fn tails(&self) -> &[Span<'a>]
        ensures tails { result.now ≡ self.now.tails }
        ensures few { length result.now ≤ 10 }
    {
        self.tails.as_slice()
    }

    /// The octets that are left.
    pub(crate) fn left(&self) -> &'a [u8]
        ensures { result.now ≡ self.now.payload.octets }
    {
        self.payload.octets()
    }

    /// Parts what is left into a head, what is left from then on, and a tail, where that has octets.
    pub(crate) fn split(
        &mut self,
        kind: HeadKind,
        head: &'a [u8],
        payload: &'a [u8],
        tail: &'a [u8],
    )
        requires whole { self.old.payload.octets ≡ head.now ++ (payload.now ++ tail.now) }
        requires heads { length self.old.heads < 34 }
        requires tails { length self.old.tails < 10 }
        ensures { self.new ≡ split kind (record { head = head.now; payload = payload.now; tail = tail.now }) self.old }
    {
        let place = self.payload.place();
        let begin = place + head.len();
        self.heads.push(Head::new(kind, place, head));
        self.payload = Span::new(begin, payload);
        if !tail.is_empty() {
            self.tails.insert(0, Span::new(begin + payload.len(), tail));
        }
    }

    /// Takes off the first octets of what is left.
    pub(crate) fn put(&mut self, kind: HeadKind, count: usize)
        requires there { count ≤ length self.old.payload.octets }
        requires heads { length self.old.heads < 34 }
        requires tails { length self.old.tails < 10 }
        ensures { self.new ≡ put kind count self.old }
    {
        let (head, rest) = self.left().split_at(count);
        self.split(kind, head, rest, &[]);
    }
}
