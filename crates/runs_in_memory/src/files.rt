//! Files in memory, as `std::rt::Files` has them, which tell a contract what they have left and what they hold.
//!
//! Use: [`Memory`] is what a program runs on, and [`MemoryFile`] a file of it. The system's own files tell a contract nothing;
//! of these all is told, so that what is proved of files that tell their octets is said of some (`runs_in_memory`).
//!
//! Read `specs/Memory.antt` for what these files tell.
//!
//! Proved: each function is safe and ends. A read hands on the octets in front of what is left, and is at the end only where
//! nothing is left; a write puts the octets that it takes behind those that are held; and nothing else changes either. A file
//! that is opened to be read has left what stands under its name.
//!
//! Proved besides:
//! - A file that is opened to be read has left what stands in the memory under its name; one that is opened to be
//!   written has nothing left; and neither holds anything: `open_file` of `Memory` (`StandsUnder`).

mod memory;
mod memory_file;

pub use memory::{Memory, NamedText};
pub use memory_file::MemoryFile;
