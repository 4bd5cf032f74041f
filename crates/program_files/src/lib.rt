//! What the program reads and writes: the texts and captures of a run, the files that it leaves, the files of a part, and what
//! is printed; and why the program gives up. Which files a run takes, and what comes out of it, stands above.
//!
//! Use first: [`open_captures`] opens the captures that [`Names`] have, and [`open_outputs`] a run's files in a folder, which
//! are emptied by [`Opened::emptied`] and end as [`HandedOn`]. [`read_file`] reads a text, and [`print_text`] prints one. A
//! [`Failure`] prints as one line, [`Failure::status`] is its exit status, and [`exit_code`] that of a
//! [`RunFault`](capture_run::RunFault).
//!
//! Specs to read: `specs/Opened.antt` for captures that were opened, `specs/Held.antt` for what files hold, `specs/Status.antt`
//! for exit statuses, and `specs/Text.antt` for texts that are read.
//!
//! Proved: each function is safe and ends. Captures that were opened are unread, one of each name, and tell what some file or
//! standard input has left, as classic pcap. As many outputs are opened, and emptied, as there are ports. Outputs are finished
//! only where as many as there were hold nothing back, and then their files hold all that was written to them. What is said of
//! octets is said wherever files tell theirs; what a file of the system, a pipe or a terminal holds isn't proved. Exit statuses
//! are the stated ones; a text that wasn't read and a part that is wrong are told as such. For every input, a text read is all
//! that it tells it had left, in at most so many reads; Read is answered only where a read failed or all reads were made.
//!
//! Proved besides:
//! - A [`SystemFault`] has the number that the system told: `SystemFault::of`. It is of too many open files where that is
//!   24: `SystemFault::is_of_open_files`.
//! - What was printed is lost where that failed for another reason than that its reader went away: `is_lost`.
//! - A text that was read is what some file had left, where it tells that: `read_file`. One that isn't named is empty:
//!   `read_if_given`.
//! - How many files are open at once, at most, by how many are read and of how many ports outputs are written:
//!   `files_at_once`.
//!
//! Why it is so: the program's work on files stands here and in the crates of single commands, as `runs_on_files`, and
//! `text_calls` knows octets alone. The system's files tell a contract nothing of what they hold, so what is said of octets is
//! said of all files that do: the code is one for both. It waits neither for `stream_run` nor for `part_merge` to be proved.
#![tactic(auto)]

mod apart;
mod closed_streams;
mod failed_outputs;
mod faults;
mod file_causes;
mod found_files;
mod handed_on;
mod inputs;
mod interface_list;
mod mark;
mod names;
mod open_files;
mod output_device;
mod outputs;
mod part_inputs;
mod part_texts;
mod printing;

pub use apart::Apart;
pub use closed_streams::ClosedStreams;
pub use failed_outputs::{FailedOutput, FailedOutputs};
pub use faults::{
    DecisionsFault, DigestsFailure, Failure, LeafFailure, OneLine, OutputFile, PartFailure, Quoted,
    SplitFailure, SystemFault, TextFault, Unwritten, UnwrittenFile, WorkedFailure, exit_code,
    is_lost, read_text,
};
pub use file_causes::{head_of_file, read_fault};
pub use found_files::{Found, FoundFiles, Place, place_of};
pub use handed_on::HandedOn;
pub use inputs::{
    Blocks, CAPTURE_READS, Capture, ClassicInput, Device, SeenCapture, open_blocks, open_capture,
    open_captures, open_front, open_named, open_seen, open_written, read_file, read_if_given,
    read_underlay, selection_of,
};
pub use interface_list::{Described, MOST_INTERFACES, Reach, interfaces_of_file};
pub use mark::{Mark, see_ended};
pub use names::{Names, RunInput, file_of, is_read_once, is_regular_file, is_same};
pub use open_files::{files_at_once, has_room, is_refused, see_room};
pub use output_device::OutputDevice;
pub use outputs::{
    Destination, FILES_OF_A_RUN, Opened, OutputFiles, OutputSums, PartRecordFile, Written,
    empty_objects, file_of_run, is_read_again, open_objects, open_outputs, path_of, spare_inputs,
};
pub use part_inputs::{
    PartFile, PartInput, PartLines, count_lines, is_as_told, may_have_octets, open_output,
    open_part_file,
};
pub use part_texts::{drop_part, drop_texts, leave_text, sum_of};
pub use printing::{Shown, print_shown, print_text};
