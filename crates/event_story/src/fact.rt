//! What a test saw.
use filter_db::{Entry, Place};
use overlay::ports::Egress;
use wire::ether::{Mac, Reason};
use wire::ip_udp::{Addr, SumState, Tunnel};

/// What a test of a frame or a packet saw.
#[derive(Clone, Copy)]
pub enum Fact {
    /// How many octets there are, and the most that there may be.
    Length {
        octets: usize,
        most: usize,
    },
    /// How many octets were captured, and how many there were.
    Captured {
        octets: usize,
        original: u32,
    },
    /// So many octets: fewer than an Ethernet header has.
    Short {
        octets: usize,
    },
    /// The addresses of a frame.
    Ether {
        source: Mac,
        destination: Mac,
    },
    /// Whether the source is a group's address.
    Source {
        group: bool,
    },
    /// Whether the destination is a group's address, and whether no bridge forwards it.
    Destination {
        group: bool,
        reserved: bool,
    },
    /// Whether a local port is up.
    Port {
        port: u8,
        up: bool,
    },
    /// The tag of a frame.
    Tag {
        vid: u16,
        pcp: u8,
        dei: bool,
    },
    NoTag,
    /// The type of a tag, and no room for it.
    CutTag,
    /// The tag has VID 4095.
    ReservedVid,
    /// Whether a local port takes frames with a VID in their tag, or those with none.
    Accepts {
        port: u8,
        tagged: bool,
        taken: bool,
    },
    /// The segment, by the VID of the tag or of the port.
    Segment {
        vid: u16,
        by_tag: bool,
    },
    /// No segment has that VID.
    NoSegment {
        vid: u16,
        by_tag: bool,
    },
    /// How the segment's frames leave at a local port, where that is a member.
    Member {
        port: u8,
        egress: Option<Egress>,
    },
    /// The type is neither IPv4's nor IPv6's.
    NotIp,
    /// The IP header is cut, or a length in it wrong.
    BadIp,
    /// The checksum of the IPv4 header is wrong.
    BadIpSum,
    /// The addresses of an IP packet.
    Ip {
        source: Addr,
        destination: Addr,
    },
    /// Whether the outer source is the address of another endpoint.
    Sender {
        other: bool,
    },
    /// Whether the outer destination is a group's, or the endpoint's own.
    Receiver {
        group: bool,
        own: bool,
    },
    /// The packet is a fragment.
    Fragment,
    /// The protocol, or IPv6 next header.
    Protocol {
        number: u8,
    },
    /// The UDP header is cut, or its length wrong.
    BadUdp,
    /// The ports of a UDP datagram.
    Udp {
        source: u16,
        destination: u16,
    },
    /// The kind of the tunnels at the destination port, where it is a tunnel port.
    TunnelPort {
        kind: Option<Tunnel>,
    },
    /// There is no UDP checksum, and there has to be one.
    NoSum,
    /// What the UDP checksum says.
    Sum {
        state: SumState,
    },
    /// Why a tunnel header isn't taken.
    Header {
        kind: Tunnel,
        reason: Reason,
    },
    /// The segment whose tunnel of this kind has this VNI.
    Vni {
        kind: Tunnel,
        vni: u32,
        segment: u16,
    },
    /// No segment has a tunnel of this kind and VNI.
    NoVni {
        kind: Tunnel,
        vni: u32,
    },
    /// Whether the outer destination, a group's, is on the flood list.
    Group {
        listed: bool,
    },
    /// Whether the sender is on the flood list, where it has to be.
    Peer {
        listed: bool,
    },
    /// Any endpoint may send to the segment.
    AnyPeer,
    /// The frame in the tunnel, or what stands behind a local frame's tag, begins with a tag, and the segment drops those.
    InnerTag,
    /// The segment doesn't learn.
    NotLearning,
    /// What stood for the source, and the place where it is learned.
    Learned {
        place: Place,
        stood: Option<Entry>,
    },
    /// The source has a fixed entry, which stays.
    Fixed {
        stood: Entry,
    },
    /// The source isn't learned: the segment has as many live entries as it may have.
    Full {
        limit: u32,
    },
    /// The destination is a group's address.
    ToGroup,
    /// What stands for the destination.
    Known {
        stood: Option<Entry>,
    },
    /// What stood for the destination, and the moment from which on it is dead, in nanoseconds.
    Dead {
        stood: Entry,
        since: u64,
    },
    /// The place is where the frame came from.
    Same {
        place: Place,
    },
    /// The place is of the sender's horizon group.
    Horizon {
        place: Place,
    },
    /// The place where the destination stands is a local port that is down or no member.
    Shut {
        place: Place,
    },
    /// The local ports from the first to the last are down, and a flood leaves them out.
    PortsDown {
        first: u8,
        last: u8,
    },
    /// No local port from the first to the last is a member of the segment, and a flood leaves them out.
    NoMembers {
        first: u8,
        last: u8,
    },
    /// There is nowhere to flood to.
    Nobody,
    /// How a frame leaves at a local port.
    AtPort {
        port: u8,
        egress: Option<Egress>,
    },
    /// How a frame leaves for a remote endpoint: the VNI, the MAC address that the packet is for, the octets of the IP
    /// packet, the most that it may have, and why it isn't sent, if it isn't.
    InTunnel {
        kind: Tunnel,
        addr: Addr,
        vni: u32,
        hop: Mac,
        packet: usize,
        mtu: u16,
        reason: Option<Reason>,
    },
}
