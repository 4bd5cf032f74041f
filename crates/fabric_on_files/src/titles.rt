//! What leaves, members and networks are called.
ghost use Rattle.std.specs.Prelude.{◌≡◌, length, IfOk};

use fabric_ways::Member;
use overlay::underlay::SegmentTunnel;
use program_files::{Failure, LeafFailure};
use std::alloc::{AllocError, Global};
use std::fmt::Write;
use wire::ip_udp::Tunnel;

/// How many endpoints are looked at at once, at most.
const MOST_LEAVES: usize = 1_024;

/// Refuses more leaves than are looked at at once, and two of one name.
pub fn see_names<'a>(files: &[&'a str]) -> Result<(), Failure<'a>> {
    for (index, file) in files.iter().enumerate() {
        if index >= MOST_LEAVES {
            return Err(Failure::Leaf(*file, LeafFailure::TooMany));
        }
        let (before, _) = files.split_at(index);
        if before
            .iter()
            .any(|other| leaf_name(*other) == leaf_name(*file))
        {
            return Err(Failure::Leaf(*file, LeafFailure::Twice));
        }
    }
    Ok(())
}

/// The name of the leaf whose settings are in this file: without its folder and `.toml`.
pub fn leaf_name(file: &str) -> &str {
    let name = match file.rsplit_once('/') {
        Some((_, name)) => name,
        None => file,
    };
    match name.strip_suffix(".toml") {
        Some(name) => name,
        None => name,
    }
}

/// What the members of a network are called: as their leaves, and with the VID where a leaf has more of them.
pub fn member_names(
    alloc: Global,
    files: &[&str],
    network: &[Member],
) -> Result<Vec<Vec<u8>>, AllocError>
    ensures { IfOk result (λ names. length names.items ≡ length network.now) }
{
    let mut names = Vec::with_capacity(alloc, network.len())?;
    for member in network {
        let leaf = files.get(usize::from(member.leaf)).copied().unwrap_or("");
        let mut name = String::from_str(alloc, leaf_name(leaf))?;
        if network
            .iter()
            .filter(|other| other.leaf == member.leaf)
            .count()
            > 1
        {
            let vid = member.vid.get();
            write!(name, "/{vid}")?;
        }
        names.push(name.into_bytes())?;
    }
    Ok(names)
}

/// What a network is called: the kinds and VNIs of its members' tunnels, as `vxlan 5000 = geneve 9000`.
pub fn title_of(alloc: Global, network: &[Member]) -> Result<Vec<u8>, AllocError> {
    let mut title = String::new(alloc);
    for kind in [Tunnel::Vxlan, Tunnel::Geneve] {
        for vni in &vnis_of(alloc, network, kind)? {
            if !title.is_empty() {
                title.push_str(" = ")?;
            }
            write!(title, "{} {vni}", word_of(kind))?;
        }
    }
    Ok(title.into_bytes())
}

/// The word for a kind of tunnel.
fn word_of(kind: Tunnel) -> &'static str {
    match kind {
        Tunnel::Vxlan => "vxlan",
        Tunnel::Geneve => "geneve",
    }
}

/// The VNIs of the members' tunnels of a kind, each once, rising.
fn vnis_of(alloc: Global, network: &[Member], kind: Tunnel) -> Result<Vec<u32>, AllocError> {
    let mut vnis: Vec<u32> = Vec::new(alloc);
    for member in network {
        if let Some(vni) = vni_of(member.tunnels.of(kind)) {
            if let Err(place) = vnis.as_slice().binary_search(&vni) {
                vnis.insert(place, vni)?;
            }
        }
    }
    Ok(vnis)
}

/// The VNI of a tunnel, where there is one.
fn vni_of(tunnel: Option<SegmentTunnel>) -> Option<u32> {
    match tunnel {
        Some(tunnel) => Some(tunnel.vni.get()),
        None => None,
    }
}

/// Puts a number and a word for so many.
pub fn put_count(
    alloc: Global,
    text: &mut Vec<u8>,
    count: usize,
    one: &str,
    many: &str,
) -> Result<(), AllocError> {
    let word = if count == 1 { one } else { many };
    let told = format!(in alloc; "{count} {word}")?;
    text.extend_from_slice(told.as_bytes())
}
