//! Labels of numbers that are linked.
ghost use Rattle.std.specs.Prelude.{◌≡◌, ℕ, ◌+◌, ◌<◌, ◌≤◌, true, false, IfOk};
ghost use Rattle.fabric_ways.specs.Labels.{IsFaithful, Links, label_in, weigh};

use std::alloc::{AllocError, Global};
use std::collections::HashMap;

/// The label of a number: its own where none is kept.
pub(crate) fn label(labels: &HashMap<u32, u32>, number: u32) -> u32
    ensures { result ≡ label_in labels.now number }
{
    match labels.get(&number) {
        Some(label) => *label,
        None => number,
    }
}

/// Gives two numbers one label, the lower of theirs. Whether they had two.
fn join(labels: &mut HashMap<u32, u32>, first: u32, last: u32) -> Result<bool, AllocError>
    ensures lower { IfOk result (λ _. (q : ℕ) → label_in labels.new q ≤ label_in labels.old q) }
    ensures keeps { IfOk result (λ _. (f : ℕ → ℕ) → f first ≡ f last
        → IsFaithful f (label_in labels.old) → IsFaithful f (label_in labels.new)) }
    ensures same { IfOk result (λ two. two ≡ false
        → ((q : ℕ) → label_in labels.new q ≡ label_in labels.old q) × (label_in labels.old first ≡ label_in labels.old last)) }
    ensures fewer { IfOk result (λ two. two ≡ true
        → label_in labels.new first + label_in labels.new last < label_in labels.old first + label_in labels.old last) }
{
    let a = label(labels, first);
    let b = label(labels, last);
    if a == b {
        return Ok(false);
    }
    let low = a.min(b);
    labels.insert(first, low)?;
    labels.insert(last, low)?;
    Ok(true)
}

/// Gives the two numbers of each link one label. Whether two had two.
fn pass(labels: &mut HashMap<u32, u32>, links: &[(u32, u32)]) -> Result<bool, AllocError>
    ensures keeps { IfOk result (λ _. (f : ℕ → ℕ) → Links f links.now
        → IsFaithful f (label_in labels.old) → IsFaithful f (label_in labels.new)) }
    ensures same { IfOk result (λ new. new ≡ false → Links (label_in labels.new) links.now) }
    ensures fewer { IfOk result (λ new. new ≡ true → weigh (label_in labels.new) links.now < weigh (label_in labels.old) links.now) }
{
    let mut new = false;
    for link in links {
        let two = join(labels, link.0, link.1)?;
        new |= two;
    }
    Ok(new)
}

/// Labels that are equal for the two numbers of each link, and for no others than what follows from these.
pub(crate) fn settle(alloc: Global, links: &[(u32, u32)]) -> Result<HashMap<u32, u32>, AllocError>
    ensures links { IfOk result (λ labels. Links (label_in labels) links.now) }
    ensures faithful { IfOk result (λ labels. (f : ℕ → ℕ) → Links f links.now → IsFaithful f (label_in labels)) }
{
    let mut labels = HashMap::new(alloc);
    loop {
        if !pass(&mut labels, links)? {
            return Ok(labels);
        }
    }
}
