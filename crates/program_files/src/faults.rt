//! Why the program gives up, and with which exit status. No file is opened here.

mod decisions_fault;
mod failure;
mod leaf_failure;
mod one_line;
mod printed;
mod quoted;
mod split_failure;
mod status;
mod system_fault;
mod text;
mod worked_failure;

pub use decisions_fault::DecisionsFault;
pub use failure::{DigestsFailure, Failure, OutputFile, PartFailure};
pub use leaf_failure::LeafFailure;
pub use one_line::OneLine;
pub use printed::is_lost;
pub use quoted::Quoted;
pub use split_failure::{SplitFailure, Unwritten, UnwrittenFile};
pub use status::exit_code;
pub use system_fault::SystemFault;
pub use text::{TextFault, read_text};
pub use worked_failure::WorkedFailure;
