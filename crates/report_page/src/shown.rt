//! Texts of those sources and outlets that are shown.
ghost use Rattle.report_page.specs.Matrix.{shown_at};

use crate::each::Parts;
use crate::ranks::{Side, shown_rank};
use report_counts::ReportCounts;
use std::fmt;

/// One that is shown: its place among those of its side, and its rank.
#[derive(Clone, Copy)]
pub(crate) struct Ranked {
    pub place: u16,
    pub rank: u8,
}

/// The texts of those of a side that are shown; the others have none.
#[derive(Clone, Copy)]
pub(crate) struct Shown<'a, P: Parts<Ranked>>(pub &'a ReportCounts, pub Side, pub P);

impl<'a, P: Parts<Ranked>> Parts<u16> for Shown<'a, P> {
    ghost part = { λ shown place. shown_at shown.0.now shown.1 (P.part shown.2) place };

    fn put<W: fmt::Write>(&self, place: u16, f: &mut fmt::Formatter<W>) -> fmt::Result {
        match shown_rank(self.0, self.1, place) {
            Some(rank) => self.2.put(Ranked { place, rank }, f),
            None => Ok(()),
        }
    }
}
