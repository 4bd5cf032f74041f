//! What came first of each number.
ghost use Rattle.std.specs.Prelude.{◌≡◌, IfOk, None, slice_index_or};
ghost use Rattle.report_counts.specs.Firsts.{first_of, none_yet, with_first};

use std::alloc::{AllocError, Global};
use std::marker::Model;

/// What came first of each number from 0 on, seen by contracts as the list of these.
#[derive(Drop)]
pub(crate) struct Firsts<T: Copy> {
    kept: Vec<Option<T>>,
}

impl<T: Copy> Model for Firsts<T> {
    ghost use Rattle.std.specs.Prelude.{List, Option};

    ghost Value = { List (Option T) };

    ghost view = { λ f. f.kept.items };
}

impl<T: Copy> Firsts<T> {
    /// Of so many numbers, of which nothing came yet.
    #[tactic(auto, unfolding(crate::specs::Firsts::none_yet))]
    pub(crate) fn new(alloc: Global, size: usize) -> Result<Firsts<T>, AllocError>
        ensures { IfOk result (λ firsts. firsts ≡ none_yet size) }
    {
        let mut kept = Vec::with_capacity(alloc, size)?;
        for _number in 0..size {
            kept.push_reserved(None);
        }
        Ok(Firsts { kept })
    }

    /// What came first of a number; nothing behind the last one.
    pub(crate) fn get(&self, number: usize) -> Option<T>
        ensures { result ≡ slice_index_or self.now number None }
    {
        match self.kept.get(number) {
            Some(kept) => *kept,
            None => None,
        }
    }

    /// Keeps what came of a number, where it is the first; nothing behind the last one.
    pub(crate) fn keep(&mut self, number: usize, value: T)
        ensures { self.new ≡ with_first number value self.old }
    {
        keep_in(self.kept.as_mut_slice(), number, value);
    }
}

/// Keeps what came at a place, where it is the first; nothing behind the last one.
fn keep_in<T: Copy>(kept: &mut [Option<T>], at: usize, value: T)
    ensures { kept.new ≡ with_first at value kept.old }
{
    if at < kept.len() {
        kept[at] = first_of(value, kept[at]);
    }
}

/// What was kept, or else what comes.
fn first_of<T: Copy>(value: T, kept: Option<T>) -> Option<T>
    ensures { result ≡ first_of value kept }
{
    match kept {
        Some(first) => Some(first),
        None => Some(value),
    }
}
