//! Lengths of time as people read them.
ghost use Rattle.std.specs.Prelude.{Some};
ghost use Rattle.report_page.specs.Duration.{duration_text, in_unit};

use std::fmt;

/// Thousandths of a unit.
#[derive(Clone, Copy)]
struct InUnit(u64, &'static str);

impl fmt::Display for InUnit {
    ghost output = { λ time. Some (in_unit time.0 time.1.now) };

    #[tactic(auto, unfolding(crate::specs::Duration::in_unit))]
    fn fmt<W: fmt::Write>(&self, f: &mut fmt::Formatter<W>) -> fmt::Result {
        let whole = self.0 / 1000;
        let tenths = self.0 / 100 % 10;
        let hundredths = self.0 / 10 % 10;
        let thousandths = self.0 % 10;
        let unit = self.1;
        write!(f, "{whole}.{tenths}{hundredths}{thousandths}{unit}")
    }
}

/// Nanoseconds. They print in the largest unit of which they are one at least, as `1.000 s`, `20.312 ms`, `7.125 us` or `31 ns`.
#[derive(Clone, Copy)]
pub(crate) struct Duration(pub u64);

impl fmt::Display for Duration {
    ghost output = { λ duration. Some (duration_text duration.0) };

    #[tactic(auto, unfolding(crate::specs::Duration::duration_text))]
    fn fmt<W: fmt::Write>(&self, f: &mut fmt::Formatter<W>) -> fmt::Result {
        let length = self.0;
        if length < 1000 {
            return write!(f, "{length} ns");
        }
        let time = if length < 1_000_000 {
            InUnit(length, " us")
        } else if length < 1_000_000_000 {
            InUnit(length / 1000, " ms")
        } else {
            InUnit(length / 1_000_000, " s")
        };
        write!(f, "{time}")
    }
}
