//! The program `tep`: a VXLAN and Geneve tunnel endpoint over captures.
//!
//! Use first: [`tep_program::start`], which is all that it does.
//!
//! It has no specs of its own: what is said of the program is the contract of [`tep_program::run`].
//!
//! Proved: it starts `tep_program`.
//!
//! Why it is so: the gate runs a program crate on one list of words alone, here without words, so `tests/texts/help.sh` asks the
//! built program for its help.
#![tactic(auto)]

use std::process::ExitCode;

fn main(rt: HostRuntime) -> ExitCode {
    tep_program::start(&rt)
}
