//! Makes a call behind other requests for memory, and prints what it answered: `done`, `memory` where memory was refused, or
//! `wrong`; and how many requests were granted behind it. Standard input has the call's name and how many requests come before
//! it.
//!
//! Read first: `calls`, the calls by their names. `tests/code/refused_memory.sh` runs the program while the request of a fixed
//! number is refused: as the requests before a call become more, the refused one goes through all that the call makes, so that
//! one build refuses each in turn. The script has the number of requests of each call, so that one more is seen too;
//! `tests/code/refused_memory.sh count` prints them anew where a change means to alter them.
//!
//! Proved: it is safe and ends. What is tested of each of the 27 calls stands in docs/PROVED.md, "Refused memory".
//!
//! Why it is so: of a call that makes something new no clause says why memory was refused. Of a refusal `Vec::with_capacity`
//! says only that the capacity isn't 0 (`succeeds { capacity ≡ 0 → IsOk result }`), and `Vec::from_slice` and `Vec::from_elem`,
//! which `vec!` calls, say nothing. `PortSet::open`, `Overlay::open`, `SharedTables::open` and `Source::new` always ask for some
//! places, so that not even the first tells anything of them. What extends a vector goes by `Vec::reserve`, which fails only
//! where there was no room (`full`): so `put_header`, `put_record` and `append_to` say it. The gate lays this crate out, proves
//! and runs it like any other.
#![tactic(auto)]

mod answer;
mod calls;
mod captures;
mod endpoints;
mod inputs;
mod openings;
mod runs;
mod texts;

use crate::calls::make;
use std::io;
use std::test::Fail;
use test_inputs::memory::granted;

fn main(rt: HostRuntime) -> Result<(), Fail> {
    let alloc = rt.alloc();
    let text = io::read_to_string(alloc, rt.reader())?;
    let Some((name, count)) = text.as_str().trim().split_once(' ') else {
        return Err(Fail::new("no name and no count"));
    };
    let answer = make(alloc, name, count.trim().parse::<u16>()?)?;
    let word = answer.word();
    let granted = granted(alloc);
    println!(rt; "{word} {granted}")?;
    Ok(())
}
