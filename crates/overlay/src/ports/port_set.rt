//! The ports, and the members of the segments.
//!
//! A segment's members stand at its VID's own place, 4,096 of them, as bits of words: look-ups, additions and removals are an
//! index for each 64 ports at most, and take no memory after `open`. What contracts see is a finite map from VID to members.
ghost use Rattle.std.specs.Prelude.{◌≡◌, ◌≤◌, [], length, IfOk, IsTrue, not};
ghost use Rattle.std.specs.List.{list_all};
ghost use Rattle.overlay.specs.Ports.{told, with_rule, lists_ports, are_ports, with_each, port_at, is_up, members_at, has_segment};
ghost use Rattle.overlay.specs.Ports.{egress_at, with_up, with_member, with_segment, without_segment};
ghost use Rattle.overlay.specs.Row.{row_at};
ghost use Rattle.overlay.specs.PortsRules.{with_members, members_or_none};

use crate::ports::{Egress, MemberRule, PortRule, Row, words};
use std::alloc::{AllocError, Global};
use std::marker::Model;
use wire::ether::Vid;

/// The most ports that there are.
pub(crate) const MOST_PORTS: usize = 255;

/// Local ports and the members of segments, seen by contracts as the list of the ports and a finite map from VID to
/// members.
///
/// Only [`PortSet::open`] takes memory: each VID has its place from then on. So segments come and go without any, and
/// none is looked for.
#[derive(Debug, Drop)]
pub struct PortSet {
    /// Port 1 stands first.
    ports: Vec<PortRule>,
    /// The members of all segments: two columns of 4,096 words for each 64 ports.
    words: Vec<u64>,
}

impl Model for PortSet {
    ghost use Rattle.std.specs.Prelude.{◌≤◌, ◌+◌, ◌*◌, ◌/◌, length};
    ghost use Rattle.overlay.specs.Ports.{Ports};
    ghost use Rattle.overlay.specs.PortsCode.{ports_code};
    ghost use Rattle.overlay.specs.Bits.{segments_in};

    ghost Value = { Ports };

    ghost coded = { ports_code };

    ghost view = { λ s. record { ports = s.ports.items; segments = segments_in (length s.ports.items) s.words.items } };

    ghost invariant = { λ s. (length s.ports.items ≤ 255) × ((length s.ports.items / 64 + 1) * 8192 ≤ length s.words.items) };
}

impl PortSet {
    /// The ports of these rules, the first of them port 1, of which there are 255 at most, and the segments of these,
    /// which list numbers of ports. Of two rules for one VID the first holds. It reserves the places of all segments,
    /// and `AllocError` says that there was no room for them.
    pub fn open(
        alloc: Global,
        ports: &[PortRule],
        members: &[MemberRule],
    ) -> Result<PortSet, AllocError>
        requires few { length ports.now ≤ 255 }
        requires listed { IsTrue (list_all (lists_ports (length ports.now)) members.now) }
        ensures { IfOk result (λ set. set ≡ told ports.now members.now) }
    {
        let mut set = PortSet::without_segments(alloc, ports)?;
        for rule in members {
            set.add_rule(rule);
        }
        Ok(set)
    }

    /// The ports of these rules, and no segment.
    fn without_segments(alloc: Global, ports: &[PortRule]) -> Result<PortSet, AllocError>
        requires { length ports.now ≤ 255 }
        ensures { IfOk result (λ set. set ≡ told ports.now []) }
    {
        let words = vec![in alloc; 0; words::word_count(ports.len())]?;
        Ok(PortSet {
            ports: Vec::from_slice(alloc, ports)?,
            words,
        })
    }

    /// Adds the segment of a rule, unless there is one of its VID.
    fn add_rule(&mut self, rule: &MemberRule)
        requires { IsTrue (lists_ports (length self.old.ports) rule.now) }
        ensures { self.new ≡ with_rule self.old rule.now }
    {
        if !self.has(rule.vid) {
            self.add_vid(rule.vid);
            self.put(rule.vid, rule.tagged.as_slice(), Egress::Tagged);
            self.put(rule.vid, rule.untagged.as_slice(), Egress::Untagged);
        }
    }

    /// Makes each of these ports a member of a segment that is there.
    fn put(&mut self, vid: Vid, ports: &[u8], egress: Egress)
        requires there { IsTrue (has_segment self.old vid) }
        requires listed { IsTrue (are_ports (length self.old.ports) ports.now) }
        ensures { self.new ≡ with_members self.old vid (with_each ports.now egress (members_or_none self.old vid)) }
    {
        for port in ports {
            self.set_member(vid, *port, Some(egress));
        }
    }

    /// The number of ports, 255 at most.
    pub fn ports(&self) -> u8
        ensures value { result ≡ length self.now.ports }
        ensures few { result ≤ 255 }
    {
        self.ports.len() as u8
    }

    /// The rule of a port.
    pub(crate) fn rule(&self, port: u8) -> &PortRule
        requires low { 1 ≤ port }
        requires high { port ≤ length self.now.ports }
        ensures { result.now ≡ port_at self.now port }
    {
        &self.ports[usize::from(port) - 1]
    }

    /// Whether a port is up. The port is 1 to [`PortSet::ports`].
    pub fn is_up(&self, port: u8) -> bool
        requires low { 1 ≤ port }
        requires high { port ≤ length self.now.ports }
        ensures { result ≡ is_up self.now port }
    {
        self.rule(port).up
    }

    /// The PVID of a port: the VID of its untagged and priority-tagged frames (IEEE 802.1Q 6.9). The port is 1 to
    /// [`PortSet::ports`].
    pub fn pvid(&self, port: u8) -> Vid
        requires low { 1 ≤ port }
        requires high { port ≤ length self.now.ports }
        ensures { result ≡ (port_at self.now port).pvid }
    {
        self.rule(port).pvid
    }

    /// Whether there is a segment of this VID.
    pub fn has(&self, vid: Vid) -> bool
        ensures { result ≡ has_segment self.now vid }
    {
        words::stands(self.words.as_slice(), vid)
    }

    /// The ports, and the members of a segment.
    #[inline(always)]
    pub fn row(&self, vid: Vid) -> Row<'_>
        ensures value { result ≡ row_at self.now vid }
        ensures few { length result.ports ≤ 255 }
    {
        Row {
            ports: self.ports.as_slice(),
            words: self.words.as_slice(),
            vid,
        }
    }

    /// How the frames of a segment leave at a port; None where the port is no member, or there is no such segment. The
    /// port is 1 to [`PortSet::ports`].
    pub fn egress(&self, vid: Vid, port: u8) -> Option<Egress>
        requires low { 1 ≤ port }
        requires high { port ≤ length self.now.ports }
        ensures { result ≡ egress_at self.now vid port }
    {
        if !self.has(vid) {
            return None;
        }
        words::egress(self.words.as_slice(), vid, port)
    }

    /// Takes a port up or down. The port is 1 to [`PortSet::ports`].
    pub fn set_up(&mut self, port: u8, up: bool)
        requires low { 1 ≤ port }
        requires high { port ≤ length self.old.ports }
        ensures { self.new ≡ with_up self.old port up }
    {
        self.ports[usize::from(port) - 1].up = up;
    }

    /// Makes a port a member of a segment that is there, whose frames leave so, or no member. The port is 1 to
    /// [`PortSet::ports`].
    pub fn set_member(&mut self, vid: Vid, port: u8, egress: Option<Egress>)
        requires there { IsTrue (has_segment self.old vid) }
        requires low { 1 ≤ port }
        requires high { port ≤ length self.old.ports }
        ensures { self.new ≡ with_member self.old vid port egress }
    {
        words::set_egress(self.words.as_mut_slice(), vid, port, egress);
    }

    /// Adds a segment without members, whose VID has none yet.
    pub fn add_vid(&mut self, vid: Vid)
        requires new { IsTrue (not (has_segment self.old vid)) }
        ensures { self.new ≡ with_segment self.old vid }
    {
        let ports = self.ports.len();
        words::add(self.words.as_mut_slice(), vid, ports);
    }

    /// Removes a segment that is there.
    pub fn remove_vid(&mut self, vid: Vid)
        requires there { IsTrue (has_segment self.old vid) }
        ensures { self.new ≡ without_segment self.old vid }
    {
        words::remove(self.words.as_mut_slice(), vid);
    }
}
