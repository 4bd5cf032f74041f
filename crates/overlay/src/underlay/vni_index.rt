//! The segments of a tunnel kind by their VNIs.
ghost use Rattle.std.specs.Prelude.{◌≡◌, ◌≤◌, ◌<◌, IfOk, IfSome, None, MatchResult};
ghost use Rattle.std.specs.FinMap.{empty, get, insert, remove, len};
ghost use Rattle.overlay.specs.Index.{listing, unlisting};
ghost use Rattle.overlay.specs.Search.{IsAt, IsGapFor};

use crate::underlay::SegmentTunnel;
use std::alloc::{AllocError, Global};
use std::marker::Model;
use wire::ether::Vid;
use wire::vxlan::Vni;

/// The VIDs of segments by their VNIs in tunnels of one kind, as many as it was opened for at most; seen by contracts as a
/// finite map and that number. Only [`VniIndex::open`] takes memory.
#[derive(Drop)]
pub(crate) struct VniIndex {
    /// In the order of the VNIs.
    entries: Vec<(Vni, Vid)>,
    /// For how many there is room.
    most: u16,
}

impl Model for VniIndex {
    ghost use Rattle.std.specs.Prelude.{◌≤◌, T};
    ghost use Rattle.std.specs.Ordering.{nat_cmp};
    ghost use Rattle.std.specs.FinMap.{from_sorted, is_sorted};
    ghost use Rattle.std.specs.Vec.{vec_capacity};
    ghost use Rattle.overlay.specs.OverlayCode.{listed_code};
    ghost use Rattle.overlay.specs.Index.{Listed};

    ghost Value = { Listed };

    ghost coded = { listed_code };

    ghost view = { λ m. record { vids = from_sorted m.entries.items; most = m.most } };

    ghost invariant = { λ m. T (is_sorted nat_cmp m.entries.items) × (m.most ≤ vec_capacity m.entries) };
}

impl VniIndex {
    /// An index of none. It reserves the places of so many entries.
    pub(crate) fn open(alloc: Global, most: u16) -> Result<VniIndex, AllocError>
        ensures { IfOk result (λ index. index ≡ record { vids = empty; most = most }) }
    {
        Ok(VniIndex {
            entries: Vec::with_capacity(alloc, usize::from(most))?,
            most,
        })
    }

    /// The segment with this VNI.
    pub(crate) fn get(&self, vni: Vni) -> Option<Vid>
        ensures { result ≡ get self.now.vids vni }
    {
        let place = self.search(vni).ok()?;
        Some(self.entries[place].1)
    }

    /// Adds a segment, whose VNI isn't there yet.
    fn insert(&mut self, vni: Vni, vid: Vid)
        requires new { get self.old.vids vni ≡ None }
        requires room { len self.old.vids < self.old.most }
        ensures { self.new ≡ record self.old { vids = insert self.old.vids vni vid } }
    {
        if let Err(place) = self.search(vni) {
            // There is room: nothing is taken.
            let _ = self.entries.insert(place, (vni, vid));
        }
    }

    /// Removes the segment with this VNI, if there is one.
    fn remove(&mut self, vni: Vni)
        ensures { self.new ≡ record self.old { vids = remove self.old.vids vni } }
    {
        if let Ok(place) = self.search(vni) {
            self.entries.remove(place);
        }
    }

    /// Adds a segment by its tunnel of this kind, if it has one.
    pub(crate) fn list(&mut self, tunnel: Option<SegmentTunnel>, vid: Vid)
        requires new { IfSome tunnel (λ t. get self.old.vids t.vni ≡ None) }
        requires room { len self.old.vids < self.old.most }
        ensures { self.new ≡ record self.old { vids = listing self.old.vids tunnel vid } }
    {
        if let Some(tunnel) = tunnel {
            self.insert(tunnel.vni, vid);
        }
    }

    /// Removes a segment by its tunnel of this kind, if it has one.
    pub(crate) fn unlist(&mut self, tunnel: Option<SegmentTunnel>)
        ensures { self.new ≡ record self.old { vids = unlisting self.old.vids tunnel } }
    {
        if let Some(tunnel) = tunnel {
            self.remove(tunnel.vni);
        }
    }

    /// The place of a VNI, or where it would go.
    fn search(&self, vni: Vni) -> Result<usize, usize>
        ensures { MatchResult result (IsAt self.now.vids vni) (IsGapFor self.now.vids vni) }
    {
        self.entries
            .binary_search_by_key(&vni.get(), |entry| entry.0.get())
    }
}
