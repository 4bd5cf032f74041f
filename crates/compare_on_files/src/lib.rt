//! What was sent compared with what was received, and what a run wrote with what was captured of it: on files.
//!
//! Use first: [`compare`] is handed two captures as words name them, [`compare_worked`] the folder of a run and what was captured
//! at each place. Both print counts, and what else is asked for. [`no_table_name`] says whether words ask for a table that there is
//! none of.
//!
//! Specs to read: `specs/Tables`, `specs/Asking`, and those that [`events`] names.
//!
//! Proved: each function is safe and ends. The name that [`no_table_name`] answers is one that no table has, exactly where the
//! words ask by such a name. Which event a record is of that a run wrote, [`events`] says, and why two captures weren't compared
//! to their ends is told with their place and the name of the one.
//!
//! Why it is so: what is the same and what is counted `capture_compare` and `record_match` say, over what was read, and what is
//! printed of it `compare_reports`; here files are opened, and standard output is written. A list and a table are told while captures
//! are read, so that the memory doesn't grow with them.
#![tactic(auto)]

mod compared;
pub mod events;
mod lent;
mod standard_output;
mod unknown_table;
mod worked;

pub use compared::{Compared, compare};
pub use unknown_table::{no_table, no_table_name};
pub use worked::{Worked, compare_worked};
