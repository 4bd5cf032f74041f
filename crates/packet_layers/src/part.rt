//! The parts of a packet.
ghost use Rattle.std.specs.Prelude.{◌≡◌};
ghost use Rattle.packet_layers.specs.Apart.{no_head, no_span};

use crate::HeadKind;
use std::marker::Model;

/// Octets of a packet: the payload, or a tail.
#[derive(Drop)]
pub struct Span<'a> {
    place: usize,
    octets: &'a [u8],
}

impl<'a> Model for Span<'a> {
    ghost use Rattle.packet_layers.specs.Apart.{Span};

    ghost Value = { Span };

    ghost view = { λ s. record { place = s.place; octets = s.octets.now } };
}

impl<'a> Default for Span<'a> {
    ghost is_default = { λ span. span ≡ no_span };

    /// No octets: what stands in the free places of a list of fixed capacity.
    fn default() -> Span<'a> {
        Span::new(0, &[])
    }
}

impl<'a> Span<'a> {
    pub(crate) fn new(place: usize, octets: &'a [u8]) -> Span<'a>
        ensures { result ≡ record { place = place; octets = octets.now } }
    {
        Span { place, octets }
    }

    /// How many octets of the packet stand before it.
    pub fn place(&self) -> usize
        ensures { result ≡ self.now.place }
    {
        self.place
    }

    /// The octets themselves.
    pub fn octets(&self) -> &'a [u8]
        ensures { result.now ≡ self.now.octets }
    {
        self.octets
    }
}

/// A header of a packet, or a part of one.
#[derive(Drop)]
pub struct Head<'a> {
    kind: HeadKind,
    span: Span<'a>,
}

impl<'a> Model for Head<'a> {
    ghost use Rattle.packet_layers.specs.Apart.{Head};

    ghost Value = { Head };

    ghost view = { λ h. record { kind = h.kind; place = h.span.place; octets = h.span.octets } };
}

impl<'a> Default for Head<'a> {
    ghost is_default = { λ head. head ≡ no_head };

    /// No octets: what stands in the free places of a list of fixed capacity.
    fn default() -> Head<'a> {
        Head::new(HeadKind::Ether, 0, &[])
    }
}

impl<'a> Head<'a> {
    pub(crate) fn new(kind: HeadKind, place: usize, octets: &'a [u8]) -> Head<'a>
        ensures { result ≡ record { kind = kind; place = place; octets = octets.now } }
    {
        Head {
            kind,
            span: Span::new(place, octets),
        }
    }

    /// The header that it is, or that it is a part of.
    pub fn kind(&self) -> HeadKind
        ensures { result ≡ self.now.kind }
    {
        self.kind
    }

    /// How many octets of the packet stand before it.
    pub fn place(&self) -> usize
        ensures { result ≡ self.now.place }
    {
        self.span.place()
    }

    /// The octets themselves.
    pub fn octets(&self) -> &'a [u8]
        ensures { result.now ≡ self.now.octets }
    {
        self.span.octets()
    }
}
