//! Why a capture isn't surveyed to its end.
ghost use Rattle.std.specs.Prelude.{◌≡◌};
ghost use Rattle.capture_survey.specs.Survey.{source_fault};

use pcap::stream::SourceFault;
use pcap::text::{CaptureFault, RecordFault};
use thiserror::Error;

/// Why a capture isn't surveyed to its end: what a run would stop at. It prints as the run's fault does behind the tap.
#[derive(Clone, Copy, Debug, PartialEq, Eq, Error)]
pub enum SurveyFault {
    /// A read failed, or one more was needed than the source may make. Of a pcapng capture the input tells its fault, where
    /// it met one.
    #[error("Read")]
    Read,
    /// Its global header is refused.
    #[error("{0}")]
    Header(CaptureFault),
    /// The record of this number, from 1, isn't read.
    #[error("{1} {0}")]
    Record(u64, RecordFault),
}

/// The fault of a source at its record of this number.
pub(crate) fn source_fault(number: u64, fault: SourceFault) -> SurveyFault
    ensures { result ≡ source_fault number fault }
{
    match fault {
        SourceFault::Read => SurveyFault::Read,
        SourceFault::NotPcap => SurveyFault::Header(CaptureFault::NotPcap),
        SourceFault::BadLink => SurveyFault::Header(CaptureFault::BadLink),
        SourceFault::TooLarge => SurveyFault::Record(number, RecordFault::TooLarge),
        SourceFault::BadFraction => SurveyFault::Record(number, RecordFault::BadFraction),
    }
}
