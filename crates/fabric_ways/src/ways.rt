//! Who reaches whom in a network.
ghost use Rattle.std.specs.Prelude.{◌≡◌, ℕ, ◌+◌, ◌*◌, ◌<◌, true, false, length, IfOk};
ghost use Rattle.fabric_ways.specs.Leads.{IsBelow, Leads};
ghost use Rattle.fabric_ways.specs.Rows.{row_in};
ghost use Rattle.fabric_ways.specs.Picture.{came_of, group_of, passes, moves, is_step, steps, cell, has_way, HasRow, AreCells, IsPicture};

use crate::graph::{is_marked, reach};
use crate::hop::{hole, hops, unanswered};
use crate::member::Member;
use fabric_grid::Cell;
use std::alloc::{AllocError, Global};
use wire::ip_udp::Tunnel;

/// What is told of a network.
#[derive(Debug, Drop)]
pub enum Picture {
    /// A broadcast goes round for ever.
    Cyclic,
    /// What becomes of the broadcasts of each of its segments at each, row by row: who sends, and in a row who hears. Of two
    /// segments of one leaf it says that they come.
    Cells(Vec<Cell>),
}

/// The kind of the tunnel by which a broadcast came to a state.
fn came_of(state: usize) -> Option<Tunnel>
    ensures { result ≡ came_of state }
{
    let rest = state % 3;
    if rest == 1 {
        return Some(Tunnel::Vxlan);
    }
    if rest == 2 {
        return Some(Tunnel::Geneve);
    }
    None
}

/// The horizon group of a segment's tunnel of a kind.
fn group_of(x: &Member, kind: Tunnel) -> u8
    ensures { result ≡ group_of x.now kind }
{
    match x.tunnels.of(kind) {
        Some(tunnel) => tunnel.group,
        None => 0,
    }
}

/// Whether a broadcast that came so is sent on into tunnels of a kind.
fn passes(x: &Member, came: Option<Tunnel>, kind: Tunnel) -> bool
    ensures { result ≡ passes x.now came kind }
{
    match came {
        Some(by) => group_of(x, by) != group_of(x, kind),
        None => true,
    }
}

/// Whether a broadcast that came to a segment so is sent to another one, and comes to it by a kind.
fn moves(x: &Member, came: Option<Tunnel>, by: Option<Tunnel>, y: &Member) -> bool
    ensures { result ≡ moves x.now came by y.now }
{
    match by {
        Some(kind) => x.leaf != y.leaf && passes(x, came, kind) && hops(x, kind, y),
        None => false,
    }
}

/// Whether one step leads from a state to another one.
fn is_step(net: &[Member], s: usize, t: usize) -> bool
    ensures { result ≡ is_step net.now s t }
{
    match (net.get(s / 3), net.get(t / 3)) {
        (Some(x), Some(y)) => moves(x, came_of(s), came_of(t), y),
        _ => false,
    }
}

/// The states to which one step leads.
fn steps_of(alloc: Global, net: &[Member], s: usize) -> Result<Vec<usize>, AllocError>
    ensures { IfOk result (λ row. row.items ≡ steps net.now s) }
{
    (0..3 * net.len())
        .filter(|t| is_step(net, s, *t))
        .collect(alloc)
}

/// The states to which one step leads, from each.
fn graph_of(alloc: Global, net: &[Member]) -> Result<Vec<Vec<usize>>, AllocError>
    ensures size { IfOk result (λ graph. length graph.items ≡ 3 * length net.now) }
    ensures rows { IfOk result (λ graph. (s : ℕ) → row_in graph.items s ≡ steps net.now s) }
{
    let mut graph = Vec::new(alloc);
    for s in 0..3 * net.len() {
        let row = steps_of(alloc, net, s)?;
        graph.push(row)?;
    }
    Ok(graph)
}

/// Whether a broadcast goes round for ever.
fn is_cyclic(alloc: Global, graph: &[Vec<usize>]) -> Result<bool, AllocError>
    requires { IsBelow (length graph.now) (row_in graph.now) }
    ensures cyclic { IfOk result (λ is. is ≡ true → (s : ℕ) × Leads (row_in graph.now) s s) }
    ensures acyclic { IfOk result (λ is. is ≡ false → (s : ℕ) → s < length graph.now → Leads (row_in graph.now) s s → ⊥) }
{
    for s in 0..graph.len() {
        let found = reach(alloc, graph, s)?;
        if is_marked(found.as_slice(), s) {
            return Ok(true);
        }
    }
    Ok(false)
}

/// What becomes of a segment's broadcasts at another one.
fn cell(x: &Member, y: &Member, way: bool) -> Cell
    ensures { result ≡ cell x.now y.now way }
{
    if x.leaf == y.leaf {
        return Cell::Comes;
    }
    if !way {
        return Cell::Lost(hole(x, y));
    }
    match unanswered(x, y) {
        Some(lost) => Cell::Unanswered(lost),
        None => Cell::Comes,
    }
}

/// Whether a segment's broadcasts come to the segment at a place.
fn has_way(found: &[bool], j: usize) -> bool
    requires { 3 * j + 2 < length found.now }
    ensures { result ≡ has_way found.now j }
{
    is_marked(found, 3 * j + 1) || is_marked(found, 3 * j + 2)
}

/// Puts the row of a segment behind cells.
fn push_row(
    cells: &mut Vec<Cell>,
    net: &[Member],
    x: &Member,
    found: &[bool],
) -> Result<(), AllocError>
    requires { length found.now ≡ 3 * length net.now }
    ensures { IfOk result (λ _. HasRow cells.old.items cells.new.items x.now net.now found.now (length net.now)) }
{
    for (j, y) in net.iter().enumerate() {
        let way = has_way(found, j);
        cells.push(cell(x, y, way))?;
    }
    Ok(())
}

/// What becomes of the broadcasts of each segment at each.
fn cells_of(alloc: Global, net: &[Member], graph: &[Vec<usize>]) -> Result<Vec<Cell>, AllocError>
    requires below { IsBelow (length graph.now) (row_in graph.now) }
    requires size { length graph.now ≡ 3 * length net.now }
    requires rows { (s : ℕ) → row_in graph.now s ≡ steps net.now s }
    ensures { IfOk result (λ cells. AreCells net.now cells.items) }
{
    let mut cells = Vec::new(alloc);
    for (i, x) in net.iter().enumerate() {
        let found = reach(alloc, graph, 3 * i)?;
        push_row(&mut cells, net, x, found.as_slice())?;
    }
    Ok(cells)
}

/// What is told of a network.
pub fn picture_of(alloc: Global, net: &[Member]) -> Result<Picture, AllocError>
    ensures { IfOk result (IsPicture net.now) }
{
    let graph = graph_of(alloc, net)?;
    if is_cyclic(alloc, graph.as_slice())? {
        return Ok(Picture::Cyclic);
    }
    let cells = cells_of(alloc, net, graph.as_slice())?;
    Ok(Picture::Cells(cells))
}
