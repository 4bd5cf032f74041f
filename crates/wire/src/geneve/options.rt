//! The options of a Geneve header.
ghost use Rattle.std.specs.Prelude.{◌≡◌, option_map};
ghost use Rattle.std.specs.Iterator.{YieldsFirstBy, item_count};
ghost use Rattle.wire.specs.GeneveOptions.{split_option};
ghost use Rattle.wire.specs.GeneveSeen.{option_seen, split_seen};

use byteorder::{BigEndian, ByteOrder};
use std::iter::FusedIterator;
use std::marker::Model;

/// The octets of an option in front of its data.
const OPTION_HEADER_LENGTH: usize = 4;

/// An option (RFC 8926, 3.5).
#[derive(Clone, Copy, Debug, PartialEq, Eq)]
pub struct GeneveOption<'a> {
    /// The namespace of the type.
    pub class: u16,
    /// The whole type octet: its high bit says that the option is critical.
    pub kind: u8,
    /// The data: 0 to 124 octets, a multiple of 4.
    pub body: &'a [u8],
}

/// The options of a header, in order, seen by contracts as the list of those that are left.
#[derive(Debug, Drop)]
pub struct GeneveOptions<'a> {
    // The texts of the options that are left, side by side.
    text: &'a [u8],
}

impl<'a> Model for GeneveOptions<'a> {
    ghost use Rattle.std.specs.Prelude.{List, IsTrue, is_some};
    ghost use Rattle.wire.specs.GeneveOptions.{TunnelOption, options_in, option_list};

    ghost Value = { List TunnelOption };

    ghost view = { λ options. option_list options.text.now };

    ghost invariant = { λ options. IsTrue (is_some (options_in options.text.now)) };
}

impl<'a> GeneveOptions<'a> {
    ghost use Rattle.std.specs.Prelude.{IsTrue, is_some};
    ghost use Rattle.wire.specs.GeneveOptions.{options_in, option_list};

    /// The options whose texts these are, side by side.
    pub(crate) fn of(text: &'a [u8]) -> GeneveOptions<'a>
        requires { IsTrue (is_some (options_in text.now)) }
        ensures { result ≡ option_list text.now }
    {
        GeneveOptions { text }
    }
}

impl<'a> Iterator for GeneveOptions<'a> {
    type Item = GeneveOption<'a>;

    ghost next_gives = { YieldsFirstBy option_seen (λ options. options) };

    ghost remaining = { item_count (λ options. options) };

    fn next(&mut self) -> Option<GeneveOption<'a>> {
        let (option, rest) = split_option(self.text)?;
        self.text = rest;
        Some(option)
    }
}

impl<'a> FusedIterator for GeneveOptions<'a> {}

/// The option that a text begins with, and what stands behind it; None where a whole option isn't there.
pub(crate) fn split_option<'a>(text: &'a [u8]) -> Option<(GeneveOption<'a>, &'a [u8])>
    ensures { option_map split_seen result ≡ split_option text.now }
{
    if text.len() < OPTION_HEADER_LENGTH {
        return None;
    }
    let end = OPTION_HEADER_LENGTH + usize::from(text[3] % 32) * 4;
    if text.len() < end {
        return None;
    }
    let option = GeneveOption {
        class: BigEndian::read_u16(text),
        kind: text[2],
        body: &text[OPTION_HEADER_LENGTH..end],
    };
    Some((option, &text[end..]))
}
