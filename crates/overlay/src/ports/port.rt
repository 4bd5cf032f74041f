//! The rule of a port.
ghost use Rattle.std.specs.Prelude.{◌≡◌};
ghost use Rattle.overlay.specs.Ingress.{accepts};

use wire::ether::Vid;

/// Which frames a port accepts (IEEE 802.1Q, 6.9).
#[derive(Clone, Copy, Debug, PartialEq, Eq)]
pub enum Accept {
    /// All frames.
    All,
    /// VLAN-tagged frames: those with a VID of 1 to 4094 in their tag.
    Tagged,
    /// Untagged and priority-tagged frames: those without a tag, and those with VID 0 in it.
    Untagged,
}

impl Accept {
    /// Whether a frame with this VID in its tag is accepted; 0 is that of a frame without a tag, too.
    pub(crate) fn accepts(self, tag_vid: u16) -> bool
        ensures { result ≡ accepts self tag_vid }
    {
        match self {
            Accept::All => true,
            Accept::Tagged => tag_vid != 0,
            Accept::Untagged => tag_vid == 0,
        }
    }
}

/// A port: what it takes for the VID of a frame that has none, which frames it accepts, and whether it is up.
#[derive(Clone, Copy, Debug, PartialEq, Eq)]
pub struct PortRule {
    /// The VID of untagged and priority-tagged frames (IEEE 802.1Q, 6.9).
    pub pvid: Vid,
    pub accept: Accept,
    pub up: bool,
}
