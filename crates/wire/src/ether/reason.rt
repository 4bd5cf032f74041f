//! Why a frame or a packet is dropped.
ghost use Rattle.std.specs.Prelude.{◌≡◌, ◌≤◌};
ghost use Rattle.wire.specs.Refusal.{nowhere, within};
ghost use Rattle.wire.specs.Reason.{number_of, name_of};
ghost use Rattle.wire.specs.declared.ether.reason.Reason.{Reason};

use crate::ether::Vid;

/// Why a frame, a packet or its copy for one outlet isn't sent. The numbers are the order of the checks, but that a
/// Geneve header's version is asked before the room for its options, and 5 and 6 of a frame in a tunnel behind 33.
///
/// 1 to 11 and 35 to 38 are those of local frames, 1 to 3, 12 to 34 (with 5 and 6 of the inner frame) and 35 to 38
/// those of outer packets, 39 and 40 those of a copy for one remote outlet.
#[derive(Clone, Copy, Debug, PartialEq, Eq)]
pub enum Reason {
    /// A local frame of more than 65,535 octets, a packet of more than 65,549.
    TooLong = 1,
    /// Fewer octets were captured than the frame had.
    Sliced = 2,
    /// Fewer than 14 octets.
    Runt = 3,
    /// The local port is down.
    PortDown = 4,
    /// The source is a group address.
    BadSource = 5,
    /// The destination is 01-80-C2-00-00-00 to 01-80-C2-00-00-0F.
    Reserved = 6,
    /// The type 8100 and fewer than 18 octets.
    CutTag = 7,
    /// VID 4095.
    BadVid = 8,
    /// The port doesn't accept frames of this type.
    FrameType = 9,
    /// No segment has the VID.
    NoSegment = 10,
    /// The port is no member of the segment.
    NotMember = 11,
    /// Behind at most two tags (8100 or 88A8) the type is neither 0800 nor 86DD.
    NotIp = 12,
    /// The IP header is cut or has another version, or tells a length below its own or beyond what is there.
    BadIp = 13,
    /// The IPv4 header checksum is wrong.
    BadIpSum = 14,
    /// The outer source isn't usable, or is a group or the endpoint's own.
    BadOuterSource = 15,
    /// The outer destination is neither a group nor the endpoint's own.
    NotForUs = 16,
    /// An IPv4 fragment, or the IPv6 next header 44.
    Fragment = 17,
    /// The protocol or next header is not 17.
    NotUdp = 18,
    /// The UDP header is cut, or tells a length below 8 or beyond the IP payload.
    BadUdp = 19,
    /// The destination port is neither tunnel port.
    NotTunnel = 20,
    /// No UDP checksum over IPv6, and the endpoint doesn't accept that.
    ZeroSum = 21,
    /// The UDP checksum is wrong.
    BadUdpSum = 22,
    /// The tunnel header is cut.
    ShortTunnel = 23,
    /// The VXLAN flag I is 0.
    NoVniFlag = 24,
    /// The Geneve version is not 0.
    BadVersion = 25,
    /// The Geneve bit O is 1.
    Control = 26,
    /// The Geneve protocol type is not 6558.
    NotEthernet = 27,
    /// The Geneve options' lengths don't add up.
    BadOptions = 28,
    /// A critical Geneve option that the endpoint does not know.
    CriticalOption = 29,
    /// No segment has this tunnel kind and VNI.
    UnknownVni = 30,
    /// The outer destination is a group that the segment doesn't flood to.
    WrongGroup = 31,
    /// The segment wants listed senders, and this one is not listed.
    UnknownPeer = 32,
    /// The inner frame has fewer than 14 octets.
    InnerRunt = 33,
    /// The inner frame has a tag, and the segment drops those.
    InnerTag = 34,
    /// The destination stands where the frame came from.
    SamePlace = 35,
    /// It came from a remote endpoint, and the destination stands at another of the same group.
    Horizon = 36,
    /// The destination stands at a local port that is down or no member.
    Unreachable = 37,
    /// There is nowhere to flood to.
    NoOutlet = 38,
    /// The outer IP packet would be longer than the MTU.
    TooBig = 39,
    /// The body begins with a tag, and the segment drops those.
    InnerTagOut = 40,
}

impl Reason {
    /// Its number, 1 to 40.
    pub fn number(self) -> u8
        ensures value { result ≡ number_of self }
        ensures in_range { (1 ≤ result) × (result ≤ 40) }
        ensures own { (other : Reason) → number_of other ≡ result → other ≡ self }
    {
        self as u8
    }

    /// Its name, as decision lines and faults print it.
    pub fn name(self) -> &'static str
        ensures value { result.now ≡ name_of self }
        ensures own { (other : Reason) → name_of other ≡ result.now → other ≡ self }
    {
        match self {
            Reason::TooLong => "TooLong",
            Reason::Sliced => "Sliced",
            Reason::Runt => "Runt",
            Reason::PortDown => "PortDown",
            Reason::BadSource => "BadSource",
            Reason::Reserved => "Reserved",
            Reason::CutTag => "CutTag",
            Reason::BadVid => "BadVid",
            Reason::FrameType => "FrameType",
            Reason::NoSegment => "NoSegment",
            Reason::NotMember => "NotMember",
            Reason::NotIp => "NotIp",
            Reason::BadIp => "BadIp",
            Reason::BadIpSum => "BadIpSum",
            Reason::BadOuterSource => "BadOuterSource",
            Reason::NotForUs => "NotForUs",
            Reason::Fragment => "Fragment",
            Reason::NotUdp => "NotUdp",
            Reason::BadUdp => "BadUdp",
            Reason::NotTunnel => "NotTunnel",
            Reason::ZeroSum => "ZeroSum",
            Reason::BadUdpSum => "BadUdpSum",
            Reason::ShortTunnel => "ShortTunnel",
            Reason::NoVniFlag => "NoVniFlag",
            Reason::BadVersion => "BadVersion",
            Reason::Control => "Control",
            Reason::NotEthernet => "NotEthernet",
            Reason::BadOptions => "BadOptions",
            Reason::CriticalOption => "CriticalOption",
            Reason::UnknownVni => "UnknownVni",
            Reason::WrongGroup => "WrongGroup",
            Reason::UnknownPeer => "UnknownPeer",
            Reason::InnerRunt => "InnerRunt",
            Reason::InnerTag => "InnerTag",
            Reason::SamePlace => "SamePlace",
            Reason::Horizon => "Horizon",
            Reason::Unreachable => "Unreachable",
            Reason::NoOutlet => "NoOutlet",
            Reason::TooBig => "TooBig",
            Reason::InnerTagOut => "InnerTagOut",
        }
    }
}

/// A refusal, with the segment where the frame or packet was in one already.
#[derive(Clone, Copy, Debug, PartialEq, Eq)]
pub struct Refused {
    pub segment: Option<Vid>,
    pub reason: Reason,
}

impl Refused {
    /// A refusal before the segment is known.
    pub fn nowhere(reason: Reason) -> Refused
        ensures { result ≡ nowhere reason }
    {
        Refused {
            segment: None,
            reason,
        }
    }

    /// A refusal in a segment.
    pub fn within(vid: Vid, reason: Reason) -> Refused
        ensures { result ≡ within vid reason }
    {
        Refused {
            segment: Some(vid),
            reason,
        }
    }
}
