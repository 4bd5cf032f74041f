//! The lists of a segment's member ports.
ghost use Rattle.overlay_config.specs.Members.{put_member};

use config_text::{Column, ListColumn, U8Range};
use overlay::ports::PortList;
use std::marker::Model;
use toml::Value;

/// Numbers of ports, 1 to 255, none of them twice; seen by contracts as their list.
#[derive(Drop)]
pub(crate) struct MemberList {
    ports: PortList,
}

impl Model for MemberList {
    ghost use Rattle.std.specs.Prelude.{ℕ, List};
    ghost use Rattle.overlay_config.specs.Members.{ArePortNumbers};

    ghost Value = { List ℕ };

    ghost view = { λ l. l.ports };

    ghost invariant = { λ l. ArePortNumbers l.ports };
}

impl MemberList {
    ghost use Rattle.std.specs.Prelude.{◌≡◌, ◌≤◌, ◌++◌, ◌∷◌, [], IsFalse};
    ghost use Rattle.overlay.specs.Settings.{is_member};

    /// No port.
    #[tactic(auto, using(crate::proofs::Numbers::no_numbers))]
    pub(crate) fn new() -> MemberList
        ensures { result ≡ [] }
    {
        MemberList {
            ports: PortList::new(),
        }
    }

    /// With one more port that isn't on the list.
    #[tactic(auto, using(crate::proofs::Numbers::has_room))]
    fn with(self, port: u8) -> MemberList
        requires low { 1 ≤ port }
        requires new { IsFalse (is_member self port) }
        ensures { result ≡ self ++ port ∷ [] }
    {
        let mut ports = self.ports;
        ports.push(port);
        MemberList { ports }
    }

    /// The numbers in their order.
    fn as_slice(&self) -> &[u8]
        ensures { result.now ≡ self.now }
    {
        self.ports.as_slice()
    }

    /// The same, for the ports of a segment.
    pub(crate) fn into_ports(self) -> PortList
        ensures { result ≡ self }
    {
        self.ports
    }
}

/// Numbers of ports, from 1, that stand neither twice on this list nor on another one.
#[derive(Clone, Copy)]
pub(crate) struct MemberPorts<'a> {
    /// How many ports there are.
    pub(crate) ports: u8,
    pub(crate) other: &'a [u8],
}

impl MemberPorts<'_> {
    ghost use Rattle.std.specs.Prelude.{◌≡◌, ◌||◌};
    ghost use Rattle.overlay.specs.Settings.{is_member};

    /// Whether a port stands among these members, or on the other list.
    fn is_listed(&self, members: &[u8], port: u8) -> bool
        ensures { result ≡ (is_member members.now port || is_member self.now.other.now port) }
    {
        members.contains(&port) || self.other.contains(&port)
    }
}

impl ListColumn for MemberPorts<'_> {
    type List = MemberList;

    ghost puts = { λ c. put_member c.ports c.other.now };

    fn put(&self, list: MemberList, value: &Value) -> Option<MemberList> {
        let column = U8Range {
            low: 1,
            high: self.ports,
        };
        let port = column.read(value)?;
        if self.is_listed(list.as_slice(), port) {
            return None;
        }
        Some(list.with(port))
    }
}
