//! Runs on files and pipes: of all segments, and of some of them as a part.
//!
//! Use first: [`run_on_files`] runs a [`Job`], of all segments or as a part, by its [`Scope`], and writes nothing where no folder
//! is named. It is handed the changes where their text was read before, by [`Texts::changes_read`]. [`print_digests`] prints the
//! captures' digests.
//!
//! Read `specs/Files.antt` for what a run leaves in files, and `specs/Held.antt` for what that is by whole texts; below them
//! stands `stream_run`'s contract.
//!
//! Proved: each function is safe and ends. A run that is done opened captures of its names, and what its files hold more than
//! before is what comes out of the run of its texts and of these captures, octet for octet, wherever files tell what they have
//! left and what they hold. The digests of captures that are printed are those of what captures of their names tell. Those that
//! a part says it was made from were taken of the octets that the inputs of its captures handed on, and no others; or they are
//! lent, and tell as many octets of each capture as its run read. What a file of the system, a pipe or a terminal holds isn't
//! proved.
//!
//! Proved besides:
//! - A run that is done opened captures of its names, of each port its own, and of the underlay (`AreOpened`,
//!   `IsOpened`), and what its files hold more than before is what comes out of the run of its texts and of what its
//!   sieve takes in of these captures, octet for octet, each file its own output's: wherever the captures' files tell
//!   what they have left, and these what they hold: `run_on_files`, and of some segments `run_part` (`IsRunOnFiles`).
//!   Wherever the files tell what they hold, these are the texts of what is taken in of some events and of some cut
//!   captures, with the settings and the changes that its texts mean.
//! - A run gets captures that are unread, as many outputs as it has ports, and the settings and the changes that its
//!   texts mean: also a run that writes nothing, for which no folder is named, by outputs that keep nothing.
//! - The texts of a run are what some files had left, where they tell that, and that of the changes is empty where none
//!   is named: `Texts::read`.
//! - A run is done only where no block of the outputs that it answers holds anything any more, of the captures, that of
//!   the underlay and the lines: `run_into`.
//!
//! Why it is so: captures are read and written as streams, and a run's outputs come as it goes: a fault in the middle leaves
//! what came before it. So all that can be told before is looked at first: texts, the number of captures, the folder, and
//! whether an output is one of the files that are read.
#![tactic(auto)]

mod digests;
mod done;
mod headers;
mod in_folder;
mod into_outputs;
mod job;
mod outbound;
mod parts;
mod run_captures;
mod runs;
mod texts;
mod unwritten;

pub use digests::print_digests;
pub use job::{Job, ListedPart, Scope};
pub use outbound::Outbound;
pub use parts::Ran;
pub use runs::run_on_files;
pub use texts::Texts;
