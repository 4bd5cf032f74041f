//! Takes thousands of steps at an open endpoint after so many requests for memory, and prints `done` where it answered as it
//! should, and else `wrong`; and how many requests were granted from then on. A line of standard input has a word and the
//! number of requests. With `steps` the endpoint should answer as its twin, which took the same steps before; with `lists` flood
//! lists of up to 40 remotes grow, shrink, come and go, and each answer is told. With `no_steps` and `no_lists` the same is
//! opened, and no step taken.
//!
//! Read first: `steps`, steps of every kind, and `lists`. `tests/code/refused_steps.sh` runs the program while the request of a fixed
//! number is refused, and has that number be the next one when the endpoint's steps begin. Where none is granted behind the
//! steps, that one wasn't made in them: no step asked for memory.
//!
//! Proved: it is safe and ends.
//!
//! Why it is so: that no step takes memory is tested and not proved. A contract could say it only of capacities, which the
//! views of the crates' types don't have.
#![tactic(auto)]

mod events;
mod inputs;
mod lists;
mod steps;
mod summary;

use crate::inputs::{changes, endpoint, first_segment, kinds, one_segment, second_segment, wide};
use crate::lists::are_taken;
use crate::steps::{taken, taken_alone};
use overlay_config::TimedChange;
use std::alloc::Global;
use std::io;
use std::test::Fail;
use test_inputs::memory::{granted, request};
use test_inputs::settings::ENDPOINT;

/// Whether an endpoint answers as its twin did before it, behind so many requests.
fn compared(
    alloc: Global,
    count: u16,
    kinds: &[TimedChange],
    segment: &[TimedChange],
) -> Result<bool, Fail> {
    let mut twin = endpoint(alloc, ENDPOINT)?;
    let mut endpoint = endpoint(alloc, ENDPOINT)?;
    let expected = taken(&mut twin, kinds, segment);
    request(alloc, count);
    let is_same = taken(&mut endpoint, kinds, segment).is_as(expected);
    Ok(is_same && taken_alone(&mut endpoint, segment))
}

/// The same with the changes that are made.
fn stepped(alloc: Global, count: u16) -> Result<bool, Fail> {
    let kinds = changes(alloc, kinds())?;
    let segment = changes(alloc, one_segment())?;
    compared(alloc, count, &kinds, &segment)
}

/// The same with no step.
fn unstepped(alloc: Global, count: u16) -> Result<bool, Fail> {
    let _kinds = changes(alloc, kinds())?;
    let _segment = changes(alloc, one_segment())?;
    let _twin = endpoint(alloc, ENDPOINT)?;
    let _endpoint = endpoint(alloc, ENDPOINT)?;
    request(alloc, count);
    Ok(true)
}

/// Whether an endpoint of long flood lists answers as it should, behind so many requests.
fn listed(alloc: Global, count: u16, is_taken: bool) -> Result<bool, Fail> {
    let first = changes(alloc, first_segment())?;
    let second = changes(alloc, second_segment())?;
    let mut endpoint = endpoint(alloc, wide())?;
    request(alloc, count);
    Ok(!is_taken || are_taken(&mut endpoint, &first, &second))
}

/// What a word asks for.
fn answered(alloc: Global, word: &str, count: u16) -> Result<bool, Fail> {
    match word {
        "steps" => stepped(alloc, count),
        "no_steps" => unstepped(alloc, count),
        "lists" => listed(alloc, count, true),
        "no_lists" => listed(alloc, count, false),
        _ => Err(Fail::new("no such word")),
    }
}

/// What a line asks for.
fn told(alloc: Global, line: &str) -> Result<bool, Fail> {
    let (word, count) = line.trim().split_once(' ').ok_or("no word and no count")?;
    answered(alloc, word, count.trim().parse::<u16>()?)
}

fn main(rt: HostRuntime) -> Result<(), Fail> {
    let alloc = rt.alloc();
    let text = io::read_to_string(alloc, rt.reader())?;
    for line in text.as_str().lines() {
        let word = if told(alloc, line)? { "done" } else { "wrong" };
        let granted = granted(alloc);
        println!(rt; "{word} {granted}")?;
    }
    Ok(())
}
