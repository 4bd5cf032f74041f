//! The line of a report that tells what was left out.
ghost use Rattle.std.specs.Prelude.{Some};
ghost use Rattle.capture_survey.specs.Report.{line_text};
ghost use Rattle.capture_survey.specs.declared.report.Note.TheVariants.{LeftOut as ToldOutbound};

use crate::report::{Line, Note};
use std::fmt;
use timeline::Tap;

/// How many packets of the capture of a tap are left out, since they are outbound. It prints as a [`Report`](crate::Report)
/// tells it: as a line, and as nothing where there are none.
#[derive(Clone, Copy)]
pub struct LeftOut {
    pub tap: Tap,
    pub packets: u64,
}

impl fmt::Display for LeftOut {
    ghost output = { λ left. Some (line_text left.tap (ToldOutbound left.packets)) };

    fn fmt<W: fmt::Write>(&self, f: &mut fmt::Formatter<W>) -> fmt::Result {
        let line = Line {
            tap: self.tap,
            note: Note::LeftOut(self.packets),
        };
        write!(f, "{line}")
    }
}
