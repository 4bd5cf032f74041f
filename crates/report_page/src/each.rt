//! Texts one behind another.
ghost use Rattle.std.specs.Prelude.{ℕ, List, Some};
ghost use Rattle.std.specs.Fmt.{WritesOnOk};
ghost use Rattle.std.specs.List.{flat_map};
ghost use Rattle.report_page.specs.Texts.{each};

use std::fmt;

/// Texts that values have.
pub(crate) trait Parts<T> {
    /// The text of a value.
    ghost part: { Self → T → List ℕ };

    /// Puts the text of a value.
    fn put<W: fmt::Write>(&self, value: T, f: &mut fmt::Formatter<W>) -> fmt::Result
        ensures { WritesOnOk W.write_str_gives f.old result (part self.now value) f.new };
}

/// The texts of so many numbers, from 0 on.
#[derive(Clone, Copy)]
pub(crate) struct Each<P: Parts<u16>>(pub P, pub u16);

impl<P: Parts<u16>> fmt::Display for Each<P> {
    ghost output = { λ e. Some (each (P.part e.0) e.1) };

    fn fmt<W: fmt::Write>(&self, f: &mut fmt::Formatter<W>) -> fmt::Result {
        for index in 0..self.1 {
            self.0.put(index, f)?;
        }
        Ok(())
    }
}

/// The texts of all values of a table.
#[derive(Clone, Copy)]
pub(crate) struct EachOf<'t, T: Copy, P: Parts<T>>(pub P, pub &'t [T]);

impl<'t, T: Copy, P: Parts<T>> fmt::Display for EachOf<'t, T, P> {
    ghost output = { λ e. Some (flat_map (P.part e.0) e.1.now) };

    fn fmt<W: fmt::Write>(&self, f: &mut fmt::Formatter<W>) -> fmt::Result {
        for value in self.1 {
            self.0.put(*value, f)?;
        }
        Ok(())
    }
}
