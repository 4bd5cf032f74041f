//! The tables of a text.
ghost use Rattle.std.specs.Prelude.{◌<◌, ◌+◌, ◌^◌, length};

/// A line of a text, with its number from 1; number 0 is the place in front of the first.
#[derive(Clone, Copy)]
pub(crate) struct Line<'a> {
    pub(crate) number: usize,
    pub(crate) text: &'a [u8],
}

/// The header of a table, and all lines behind it.
#[derive(Clone, Copy)]
pub(crate) struct Block<'l, 'a> {
    pub(crate) header: Line<'a>,
    pub(crate) lines: &'l [&'a [u8]],
    // The lines can be numbered.
    ghost fits: { header.number + length lines.now < 2 ^ 64 },
}
