//! What the parts of a run told of their counts and of their tables, made what the whole run tells.
//!
//! Use first: a [`Summary`] is read from the text of a part's counts as this crate writes it, takes the counts of other
//! parts, and writes what all of them come to; why a text is no summary is a [`ReportFault`]. Of the text of a part's tables
//! (crate `table_lines`) [`rows_in`] takes the lines apart, one of a segment each, and [`tables_of`] puts those of all parts
//! together, segment by segment; why a text is none of tables is a [`TablesFault`].
//!
//! Specs to read, in order: of counts `specs/Told`, `specs/Rows`, `specs/Kept`, `specs/Run`; of tables `specs/Tables`,
//! `specs/Whole`.
//!
//! Proved of counts: a text is read only where it is the summary of the counts that are read, and always where it is the
//! summary of counts that a run can have, unless memory was refused; what a run tells is such a text ([`laws::runs`]). Parts
//! add up count by count, each to the greatest of 64 bits at most, their cut captures one behind another, and the text is
//! the summary of what they come to. Which line a fault names isn't proved, nor that a cut capture's place is a port of the
//! run.
//!
//! Proved of tables: a text is read as rows just where it is lines of the segments that are asked for, each with its VID in
//! front; else the first line that is none is told. The rows of all parts come out as the lines of each VID, the VIDs
//! rising, and of one VID in their order. Where each part's rows are those of its own segments in the whole run's state and
//! each segment is in one part, they are the tables that the whole run tells, as far as no line feed stands in what is told
//! of an entry ([`parts_are_whole`]).
//!
//! Proved of counts:
//! - A text is read only where it is the summary of the counts that are read, and always where it is the summary of
//!   counts that a run can have, unless memory was refused. These are then the counts that are read, in all that a
//!   summary tells: `Summary::read`.
//!
//! Why it is so: a line of counts is read by its words alone; whether it is written as it has to be is seen where the counts
//! are written again. A line of tables is taken by its segment alone, as it stands: what else it tells was written by a run.
//! That the segment is one of the part's own is asked, so that no entry comes twice or from another part.

mod adding;
mod fault;
pub mod laws;
mod row;
mod summary;
mod table_laws;
mod table_row;
mod table_rows;
mod tables;
mod tables_fault;

pub use fault::ReportFault;
pub use summary::Summary;
pub use table_laws::{parts_are_whole, refused_have_no_rows};
pub use table_row::TableRow;
pub use table_rows::rows_in;
pub use tables::tables_of;
pub use tables_fault::TablesFault;
