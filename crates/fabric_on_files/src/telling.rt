//! What is told of the networks.
ghost use Rattle.std.specs.Prelude.{◌≡◌, length, IfOk, IfSome};
ghost use Rattle.fabric_grid.specs.Cells.{IsSquare, size};

use crate::titles::{member_names, put_count, title_of};
use fabric_grid::{Grid, grid_text};
use fabric_ways::{Member, Networks, Picture, picture_of};
use std::alloc::{AllocError, Global};

/// What is told of some networks, the same of each.
#[derive(Drop)]
pub struct Told {
    /// What they are called: one at least.
    pub titles: Vec<Vec<u8>>,
    /// What stands behind that.
    pub text: Vec<u8>,
}

impl Told {
    /// Whether all reach all: whether there is nothing more to tell than that.
    pub fn is_whole(&self) -> bool {
        self.text.iter().filter(|octet| **octet == b'\n').count() == 1
    }
}

/// What is told of each network of these segments, whose leaves have their settings in these files.
pub fn tell_networks(
    alloc: Global,
    files: &[&str],
    members: Vec<Member>,
) -> Result<Vec<Told>, AllocError> {
    let mut members = members;
    let networks = Networks::of(alloc, members.as_slice())?;
    networks.sort(alloc, members.as_mut_slice())?;
    let mut told = Vec::new(alloc);
    let mut rest = members.as_slice();
    for _ in 0..members.len() {
        let Some(first) = rest.first() else {
            break;
        };
        let (network, others) = parted(&networks, first, rest);
        let text = network_text(alloc, files, network)?;
        note(&mut told, alloc, title_of(alloc, network)?, text)?;
        rest = others;
    }
    Ok(told)
}

/// The segments of the network of the first of these, and those behind them.
fn parted<'m>(
    networks: &Networks,
    first: &Member,
    members: &'m [Member],
) -> (&'m [Member], &'m [Member]) {
    let count = networks.front(networks.number(first), members);
    members.split_at(count.min(members.len()))
}

/// Notes what is told of a network of this title.
fn note(
    told: &mut Vec<Told>,
    alloc: Global,
    title: Vec<u8>,
    text: Vec<u8>,
) -> Result<(), AllocError> {
    for one in told.iter_mut() {
        if one.text.as_slice() == text.as_slice() {
            one.titles.push(title)?;
            return Ok(());
        }
    }
    let mut titles = Vec::new(alloc);
    titles.push(title)?;
    told.push(Told { titles, text })?;
    Ok(())
}

/// What is told of a network, behind what it is called.
fn network_text(alloc: Global, files: &[&str], network: &[Member]) -> Result<Vec<u8>, AllocError> {
    let names = member_names(alloc, files, network)?;
    let ways = match grid_of(alloc, network)? {
        Some(grid) => {
            let shown = slices_of(alloc, names.as_slice())?;
            grid_text(alloc, &grid, shown.as_slice())?
        }
        None => loop_text(alloc, network.len())?,
    };
    with_vids(alloc, ways, names.as_slice(), network)
}

/// What is told of a network of so many members in which a broadcast goes round for ever.
fn loop_text(alloc: Global, members: usize) -> Result<Vec<u8>, AllocError> {
    let mut text = Vec::new(alloc);
    put_count(alloc, &mut text, members, "leaf", "leaves")?;
    text.extend_from_slice(b"\n  a loop: who reaches whom isn't counted\n")?;
    Ok(text)
}

/// What is told of a network, with its members' VIDs behind their number where not all have one.
fn with_vids(
    alloc: Global,
    text: Vec<u8>,
    names: &[Vec<u8>],
    network: &[Member],
) -> Result<Vec<u8>, AllocError> {
    let first = network.first().map_or(0, |member| member.vid.get());
    if network.iter().all(|member| member.vid.get() == first) {
        return Ok(text);
    }
    let behind = text
        .iter()
        .position(|octet| *octet == b':' || *octet == b'\n')
        .unwrap_or(0);
    let (number, rest) = text.as_slice().split_at(behind.min(text.len()));
    let mut told = Vec::new(alloc);
    told.extend_from_slice(number)?;
    for (name, member) in names.iter().zip(network) {
        told.extend_from_slice(b", ")?;
        told.extend_from_slice(name.as_slice())?;
        let vid = member.vid.get();
        let vid = format!(in alloc; " vid {vid}")?;
        told.extend_from_slice(vid.as_bytes())?;
    }
    told.extend_from_slice(rest)?;
    Ok(told)
}

/// These texts, as they are told.
fn slices_of(alloc: Global, texts: &[Vec<u8>]) -> Result<Vec<&[u8]>, AllocError>
    ensures { IfOk result (λ slices. length slices.items ≡ length texts.now) }
{
    texts.iter().map(|text| text.as_slice()).collect(alloc)
}

/// Who reaches whom in a network; None: a broadcast goes round for ever.
fn grid_of(alloc: Global, network: &[Member]) -> Result<Option<Grid>, AllocError>
    ensures { IfOk result (λ grid. IfSome grid (λ grid. IsSquare grid × (size grid ≡ length network.now))) }
{
    let cells = match picture_of(alloc, network)? {
        Picture::Cyclic => return Ok(None),
        Picture::Cells(cells) => cells,
    };
    let leaves = network.iter().map(|member| member.leaf).collect(alloc)?;
    Ok(Some(Grid { leaves, cells }))
}
