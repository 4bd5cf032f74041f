//! The line that tells of records which came in elsewhere before.
ghost use Rattle.std.specs.Prelude.{◌≡◌, Some};
ghost use Rattle.capture_survey.specs.Report.{are_many, echo_words, echoes_text};

use std::fmt;
use timeline::Tap;

/// How many records of the capture of a tap came in at another place before, or left the endpoint itself. It prints as a line
/// where they are one in ten at least, and as nothing where they are fewer: a frame may come in twice.
#[derive(Clone, Copy)]
pub struct Echoes {
    pub tap: Tap,
    /// How many of them did, or are.
    pub echoes: u64,
    /// How many records the capture has.
    pub records: u64,
}

impl Echoes {
    /// Whether they are one in ten at least, and there are any.
    fn are_many(self) -> bool
        ensures { result ≡ are_many self.echoes self.records }
    {
        self.echoes > 0 && self.echoes.saturating_mul(10) >= self.records
    }
}

impl fmt::Display for Echoes {
    ghost output = { λ echoes. Some (echoes_text echoes) };

    #[tactic(auto, unfolding(crate::specs::Report::echoes_text))]
    fn fmt<W: fmt::Write>(&self, f: &mut fmt::Formatter<W>) -> fmt::Result {
        if !self.are_many() {
            return Ok(());
        }
        let tap = self.tap;
        let echoes = self.echoes;
        let records = self.records;
        let words = EchoWords(tap);
        write!(
            f,
            "{tap}: {echoes} of {records} {words}: does this capture have what left, too? run --both, or tcpdump -Q in\n"
        )
    }
}

/// What is said of echoes at a tap.
#[derive(Clone, Copy)]
struct EchoWords(Tap);

impl fmt::Display for EchoWords {
    ghost output = { λ words. Some (echo_words words.0) };

    fn fmt<W: fmt::Write>(&self, f: &mut fmt::Formatter<W>) -> fmt::Result {
        match self.0 {
            Tap::Port(_) => write!(f, "records came in elsewhere within 10 ms before"),
            Tap::Underlay => write!(f, "packets left us"),
        }
    }
}
