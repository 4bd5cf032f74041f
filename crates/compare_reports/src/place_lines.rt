//! The lines of two captures, or of a place, behind what is listed.
ghost use Rattle.std.specs.Prelude.{◌≡◌, Some};
ghost use Rattle.capture_compare.specs.Tables.{place_words};
ghost use Rattle.compare_reports.specs.Doubled.{doubled_text, doubled_words};
ghost use Rattle.compare_reports.specs.Printed.{aside_part, behind_text, behind_words, place_text, scope_at};

use capture_compare::Aside;
use capture_compare::lines::{AsideLines, CountLines, Counts, CutLine, Scope};
use record_match::Cut;
use std::fmt;
use timeline::Tap;

/// The counts of two captures, or of a place, and behind them what came again, what is cut, what came in another order, and what was
/// left aside.
#[derive(Clone, Copy)]
pub(crate) struct PlaceLines {
    /// The place, where it is one of several.
    pub(crate) at: Option<Tap>,
    pub(crate) counts: Counts,
    /// How many of those that were received alone came again.
    pub(crate) doubled: u64,
    /// How many records are cut.
    pub(crate) cut: Cut,
    /// How many of those that are both were sent before one that was received in front of them.
    pub(crate) behind: u64,
    /// How many were left aside, where some may be.
    pub(crate) aside: Option<Aside>,
}

impl fmt::Display for PlaceLines {
    ghost output = { λ lines. Some (place_text lines) };

    #[tactic(auto, unfolding(crate::specs::Printed::place_text))]
    fn fmt<W: fmt::Write>(&self, f: &mut fmt::Formatter<W>) -> fmt::Result {
        let counts = CountLines {
            scope: scope_at(self.at),
            counts: self.counts,
        };
        let doubled = DoubledLine {
            at: self.at,
            count: self.doubled,
        };
        let cut = CutLine {
            at: self.at,
            cut: self.cut,
        };
        let behind = BehindLine {
            at: self.at,
            count: self.behind,
        };
        let aside = AsidePart {
            at: self.at,
            aside: self.aside,
        };
        write!(f, "{counts}{doubled}{cut}{behind}{aside}")
    }
}

/// Whose counts they are.
fn scope_at(at: Option<Tap>) -> Scope
    ensures { result ≡ scope_at at }
{
    match at {
        None => Scope::Pair,
        Some(tap) => Scope::Place(tap),
    }
}

/// How many records came again; where none did, it prints as nothing.
#[derive(Clone, Copy)]
struct DoubledLine {
    at: Option<Tap>,
    count: u64,
}

impl fmt::Display for DoubledLine {
    ghost output = { λ line. Some (doubled_text line.at line.count) };

    fn fmt<W: fmt::Write>(&self, f: &mut fmt::Formatter<W>) -> fmt::Result {
        if self.count == 0 {
            Ok(())
        } else {
            let at = AtPlace(self.at);
            let words = DoubledWords(self.count);
            write!(f, "{at}{words}")
        }
    }
}

/// How many they are.
#[derive(Clone, Copy)]
struct DoubledWords(u64);

impl fmt::Display for DoubledWords {
    ghost output = { λ words. Some (doubled_words words.0) };

    #[tactic(auto, unfolding(crate::specs::Doubled::doubled_words))]
    fn fmt<W: fmt::Write>(&self, f: &mut fmt::Formatter<W>) -> fmt::Result {
        let count = self.0;
        write!(f, "doubled {count}\n")
    }
}

/// How many records are behind another; where none is, it prints as nothing.
#[derive(Clone, Copy)]
struct BehindLine {
    at: Option<Tap>,
    count: u64,
}

impl fmt::Display for BehindLine {
    ghost output = { λ line. Some (behind_text line.at line.count) };

    fn fmt<W: fmt::Write>(&self, f: &mut fmt::Formatter<W>) -> fmt::Result {
        if self.count == 0 {
            Ok(())
        } else {
            let at = AtPlace(self.at);
            let words = BehindWords(self.count);
            write!(f, "{at}{words}")
        }
    }
}

/// How many they are.
#[derive(Clone, Copy)]
struct BehindWords(u64);

impl fmt::Display for BehindWords {
    ghost output = { λ words. Some (behind_words words.0) };

    #[tactic(auto, unfolding(crate::specs::Printed::behind_words))]
    fn fmt<W: fmt::Write>(&self, f: &mut fmt::Formatter<W>) -> fmt::Result {
        let count = self.0;
        write!(f, "behind another {count}\n")
    }
}

/// The place in front of a line, where captures of several are compared.
#[derive(Clone, Copy)]
struct AtPlace(Option<Tap>);

impl fmt::Display for AtPlace {
    ghost output = { λ at. Some (place_words at.0) };

    fn fmt<W: fmt::Write>(&self, f: &mut fmt::Formatter<W>) -> fmt::Result {
        match self.0 {
            None => Ok(()),
            Some(tap) => write!(f, "{tap}: "),
        }
    }
}

/// How many were left aside, where some may be; else it prints as nothing.
#[derive(Clone, Copy)]
struct AsidePart {
    at: Option<Tap>,
    aside: Option<Aside>,
}

impl fmt::Display for AsidePart {
    ghost output = { λ part. Some (aside_part part.at part.aside) };

    fn fmt<W: fmt::Write>(&self, f: &mut fmt::Formatter<W>) -> fmt::Result {
        match self.aside {
            None => Ok(()),
            Some(aside) => {
                let lines = AsideLines { at: self.at, aside };
                write!(f, "{lines}")
            }
        }
    }
}
