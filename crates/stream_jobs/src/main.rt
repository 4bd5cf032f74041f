//! Jobs over streams that users wait for, over inputs that are made of a seed: `stream_jobs JOB ROUNDS SIZE SEED`. `bench/run`
//! times it.
//!
//! Jobs: `compared`, two captures of a port and two of the underlay, each with what was sent and what was received, compared as
//! the program does; `piped`, a run over captures that come through pipes, and one over the same as files, which has to write
//! the same; and `all`, both; `leaf`, a run of a leaf switch of 64 ports, whose 1,000 segments flood to 128 other leaves. SIZE is
//! the number of records that are sent, or of events, in a round. A job prints a digest of all that its rounds give, and both
//! jobs of `all` fail where that isn't what the captures were made to give.
#![tactic(auto)]

mod compared;
mod devices;
mod digest;
mod draws;
mod fault;
mod frames;
mod leaf;
mod piped;
mod tape;
mod way;

use compared::compared;
use digest::Digest;
use draws::Draws;
use fault::JobFault;
use leaf::leaf;
use piped::piped;
use std::alloc::Global;
use std::env;
use std::process::ExitCode;

/// Does the rounds of a job.
fn rounds(
    alloc: Global,
    digest: &mut Digest,
    job: &str,
    draws: Draws,
    count: u32,
    size: u32,
) -> Result<(), JobFault> {
    match job {
        "compared" => compared(alloc, digest, draws, count, size),
        "piped" => piped(alloc, digest, draws, count, size),
        "leaf" => leaf(alloc, digest, draws, count, size),
        _ => Err(JobFault::Words),
    }
}

/// The number of a word.
fn number(words: &[String], index: usize) -> Result<u32, JobFault> {
    match words.get(index) {
        Some(word) => match word.as_str().parse::<u32>() {
            Ok(number) => Ok(number),
            Err(_) => Err(JobFault::Words),
        },
        None => Err(JobFault::Words),
    }
}

/// Does what the words ask for.
fn perform<R: AllocGlobal + Print>(rt: &R, words: &[String]) -> Result<(), JobFault> {
    let Some(asked) = words.get(1) else {
        return Err(JobFault::Words);
    };
    let count = number(words, 2)?;
    let size = number(words, 3)?;
    let seed = number(words, 4)?;
    for job in ["compared", "piped", "leaf"] {
        let is_of_all = job != "leaf";
        if asked.as_str() == job || is_of_all && asked.as_str() == "all" {
            let mut digest = Digest::new();
            rounds(rt.alloc(), &mut digest, job, Draws::new(seed), count, size)?;
            let word = digest.word();
            let _ = println!(rt; "{job} {word:016x}");
        }
    }
    Ok(())
}

fn main(rt: HostRuntime) -> ExitCode {
    let words = match env::args(&rt) {
        Ok(words) => words,
        Err(_) => return ExitCode::from(2),
    };
    let words: Vec<String> = match words.collect(rt.alloc()) {
        Ok(words) => words,
        Err(_) => return ExitCode::from(3),
    };
    match perform(&rt, words.as_slice()) {
        Ok(()) => ExitCode::from(0),
        Err(JobFault::Words) => ExitCode::from(2),
        Err(JobFault::Memory) => ExitCode::from(3),
        Err(JobFault::Failed(what)) => {
            let _ = println!(&rt; "failed: {what:?}");
            ExitCode::from(1)
        }
    }
}
