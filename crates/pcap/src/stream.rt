//! Captures as streams, of any size, in the memory of one record.
//!
//! Use first: a [`Source`] reads the records of a capture (classic pcap, as [`crate::text`] reads it in memory) from an
//! [`Input`], one after another, and lends each until the next is fetched. A [`Sink`] writes a capture to an [`Output`].
//! Both keep to what the device does: each read and each write may move fewer octets than asked, or fail. [`StdInput`] and
//! [`StdOutput`] are std's readers and writers as such devices, and a [`BlockOutput`] hands on block by block. No file is
//! opened here.
//!
//! Specs to read, in order: `specs/Supply`, `specs/Source`, `specs/InTurn`, `specs/Sink`, `specs/Block`.
//!
//! Proved, for every input and output: the records that a source lends are, one after another, those of the octets that its
//! input tells, with the fault or the cut rest that they end with; it makes at most as many reads as it was given, and for a
//! record that it lends no more than that lacks octets of those read ahead. What a sink wrote is the texts that were put, and
//! behind a failed write a part of them. An output in blocks has all that was written to it, in the output behind it and then
//! in its block.
//!
//! Proved of a source, for every input:
//! - `Read` comes only where a read failed, or where all reads that were left were made, none of them found the end,
//!   they took at least an octet for each of them, and what they took doesn't settle what comes next: `Source::open`,
//!   `fill`.
//! - Over its life it makes at most as many reads as it was given: `laws::all_reads_count`. For a record that it lends
//!   they are no more than that lacks octets of those read ahead: `fill`. Where the next record was read ahead whole,
//!   which `holds_next` tells, none is made.
//!
//! Proved of sinks and outputs, for every output:
//! - A whole text is appended in as many writes as it takes; where one fails or takes nothing, a part of it was
//!   appended and not all: `Output::write_all`, and `write_gathered` of five texts side by side.
//! - An output in blocks has all that was written to it, in the output behind it and then in its block, also where
//!   handing the block on fails, and in the output alone once `finish` answers Ok: `BlockOutput`.
//! - It hands on exactly where the block may not hold what is written beside what it holds: then that goes on first,
//!   and what is longer than a block behind it: `BlockOutput`.
//! - Handing on what is held back before that changes nothing of what was written, also where it fails, and leaves the
//!   block empty where it doesn't: `Output::hand_on_held`, `Sink::hand_on_held`; then what was written is what the
//!   output behind the block has. Whether it would have to go on before so many octets more is told: `must_hand_on`.
//!
//! Why it is so: the streams stand above [`crate::text`] since both read records against one definition of what comes next,
//! and [`crate::text`] hands out the two headers for it. Whole runs of calls are told by [`laws`].

mod ahead;
mod block_output;
mod device;
mod fault;
mod fetch;
mod input;
pub mod laws;
mod output;
mod room;
mod sink;
mod source;
mod supply;
mod write;

pub use block_output::BlockOutput;
pub use device::DeviceFault;
pub use fault::{SourceFault, WriteFault};
pub use input::{Input, StdInput, read_behind};
pub use output::{Output, StdOutput};
pub use sink::Sink;
pub use source::Source;
pub use write::put_behind;
