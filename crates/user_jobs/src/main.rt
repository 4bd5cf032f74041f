//! Jobs that users wait for, over inputs that are made of a seed: `user_jobs JOB ROUNDS SIZE SEED`. It prints a digest of all
//! that the rounds of the job give. `bench/run` times it.
//!
//! Jobs: `switch`, a run over a switch's hour; `colliding`, one over addresses that were chosen to collide; `onefile`, one
//! over a pcapng file of a whole switch; `explain`, packets taken apart; `parts`, a run in parts, with digests and a merge;
//! `watched`, full tables, changes, stories, listings and counts; `listed`, stories and listings of stations that came in
//! order; and `all`, each of them. SIZE is the number of events or packets of a round.
#![tactic(auto)]

mod devices;
mod digest;
mod draws;
mod explained;
mod fault;
mod listed;
mod packets;
mod parts;
mod runs;
mod tape;
mod traffic;
mod watched;

use digest::Digest;
use draws::Draws;
use explained::explained;
use fault::JobFault;
use listed::listed;
use parts::parts;
use runs::{colliding, one_file, switch_hours};
use std::alloc::Global;
use std::env;
use std::process::ExitCode;
use watched::watched;

/// Does the rounds of a job.
fn rounds(
    alloc: Global,
    digest: &mut Digest,
    job: &str,
    draws: Draws,
    count: u32,
    size: u32,
) -> Result<(), JobFault> {
    match job {
        "switch" => switch_hours(alloc, digest, draws, count, size),
        "colliding" => colliding(alloc, digest, draws, count, size),
        "onefile" => one_file(alloc, digest, draws, count, size),
        "explain" => explained(alloc, digest, draws, count, size),
        "parts" => parts(alloc, digest, draws, count, size),
        "watched" => watched(alloc, digest, draws, count, size),
        "listed" => listed(alloc, digest, draws, count, size),
        _ => Err(JobFault::Words),
    }
}

/// The number of a word.
fn number(words: &[String], index: usize) -> Result<u32, JobFault> {
    match words.get(index) {
        Some(word) => match word.as_str().parse::<u32>() {
            Ok(number) => Ok(number),
            Err(_) => Err(JobFault::Words),
        },
        None => Err(JobFault::Words),
    }
}

/// Does what the words ask for.
fn perform<R: AllocGlobal + Print>(rt: &R, words: &[String]) -> Result<(), JobFault> {
    let Some(asked) = words.get(1) else {
        return Err(JobFault::Words);
    };
    let count = number(words, 2)?;
    let size = number(words, 3)?;
    let seed = number(words, 4)?;
    for job in [
        "switch",
        "colliding",
        "onefile",
        "explain",
        "parts",
        "watched",
        "listed",
    ] {
        if asked.as_str() == job || asked.as_str() == "all" {
            let mut digest = Digest::new();
            rounds(rt.alloc(), &mut digest, job, Draws::new(seed), count, size)?;
            let word = digest.word();
            let _ = println!(rt; "{job} {word:016x}");
        }
    }
    Ok(())
}

fn main(rt: HostRuntime) -> ExitCode {
    let words = match env::args(&rt) {
        Ok(words) => words,
        Err(_) => return ExitCode::from(2),
    };
    let words: Vec<String> = match words.collect(rt.alloc()) {
        Ok(words) => words,
        Err(_) => return ExitCode::from(3),
    };
    match perform(&rt, words.as_slice()) {
        Ok(()) => ExitCode::from(0),
        Err(JobFault::Words) => ExitCode::from(2),
        Err(JobFault::Memory) => ExitCode::from(3),
        Err(JobFault::Failed(what)) => {
            let _ = println!(&rt; "failed: {what:?}");
            ExitCode::from(1)
        }
    }
}
