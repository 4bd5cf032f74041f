//! What steps lead to.
ghost use Rattle.std.specs.Prelude.{◌≡◌, ◌↔◌, ℕ, ◌+◌, ◌<◌, ◌≤◌, Bool, true, false, not, length, slice_set, slice_index, IfOk, if◌then◌else◌};
ghost use Rattle.fabric_ways.specs.Leads.{HasAll, IsClosed, Leads, IsWithin, IsBelow, Keeps, is_found, left};
ghost use Rattle.fabric_ways.specs.Rows.{row_in};

use std::alloc::{AllocError, Global};

/// Marks a number. Whether it is new.
fn put(found: &mut [bool], t: usize) -> bool
    requires { t < length found.old }
    ensures value { found.new ≡ slice_set found.old t true }
    ensures new { result ≡ not (is_found found.old t) }
    ensures same { result ≡ false → found.new ≡ found.old }
    ensures fewer { left found.new + (if result then 1 else 0) ≡ left found.old }
{
    let new = !found[t];
    found[t] = true;
    new
}

/// Marks some numbers. Whether one is new.
fn mark(found: &mut [bool], row: &[usize]) -> bool
    requires { (k : ℕ) → k < length row.now → slice_index row.now k < length found.old }
    ensures keeps { Keeps found.old found.new }
    ensures all { HasAll (is_found found.new) row.now }
    ensures within { (p : ℕ → Bool) → HasAll p row.now → IsWithin found.old p → IsWithin found.new p }
    ensures same { result ≡ false → found.new ≡ found.old }
    ensures least { left found.new ≤ left found.old }
    ensures fewer { result ≡ true → left found.new < left found.old }
{
    let mut new = false;
    for t in row {
        let is_new = put(found, *t);
        new |= is_new;
    }
    new
}

/// Where one step leads from a state.
fn row_of(graph: &[Vec<usize>], s: usize) -> &[usize]
    requires { s < length graph.now }
    ensures { result.now ≡ row_in graph.now s }
{
    match graph.get(s) {
        Some(row) => row.as_slice(),
        None => &[],
    }
}

/// Marks where one step leads from what is marked. Whether one is new.
fn spread(found: &mut [bool], graph: &[Vec<usize>]) -> bool
    requires rows { length graph.now ≡ length found.old }
    requires below { IsBelow (length found.old) (row_in graph.now) }
    ensures keeps { Keeps found.old found.new }
    ensures within { (p : ℕ → Bool) → IsClosed (row_in graph.now) p → IsWithin found.old p → IsWithin found.new p }
    ensures closed { result ≡ false → IsClosed (row_in graph.now) (is_found found.new) }
    ensures fewer { result ≡ true → left found.new < left found.old }
{
    let mut new = false;
    for s in 0..graph.len() {
        if found[s] {
            new |= mark(found, row_of(graph, s));
        }
    }
    new
}

/// Marks where one or more steps lead from a state, where nothing is marked yet.
fn mark_reached(found: &mut [bool], graph: &[Vec<usize>], start: usize)
    requires rows { length graph.now ≡ length found.old }
    requires start { start < length graph.now }
    requires below { IsBelow (length graph.now) (row_in graph.now) }
    requires none { (t : ℕ) → is_found found.old t ≡ false }
    ensures { (t : ℕ) → (is_found found.new t ≡ true) ↔ Leads (row_in graph.now) start t }
{
    mark(found, row_of(graph, start));
    while spread(found, graph) {}
}

/// Whether a number is marked.
pub(crate) fn is_marked(found: &[bool], t: usize) -> bool
    requires { t < length found.now }
    ensures { result ≡ is_found found.now t }
{
    found[t]
}

/// Where one or more steps lead from a state.
pub(crate) fn reach(
    alloc: Global,
    graph: &[Vec<usize>],
    start: usize,
) -> Result<Vec<bool>, AllocError>
    requires start { start < length graph.now }
    requires below { IsBelow (length graph.now) (row_in graph.now) }
    ensures size { IfOk result (λ found. length found.items ≡ length graph.now) }
    ensures led { IfOk result (λ found. (t : ℕ) →
        (is_found found.items t ≡ true) ↔ Leads (row_in graph.now) start t) }
{
    let mut found = vec![in alloc; false; graph.len()]?;
    mark_reached(found.as_mut_slice(), graph, start);
    Ok(found)
}
