//! What each reason of a drop means.

/// When each reason holds, and what to look at, in the order of the reasons' numbers: as `docs/REASONS.md` says it.
pub(crate) const SENTENCES: [&str; 40] = [
    "A local frame of more than 65,535 octets, a packet of more than 65,549; look at how the capture was made: \
    offloads merge segments before the capture sees them.",
    "Fewer octets than the original length: the capture kept only the front; look at the snapshot length of the \
    capture (tcpdump -s 0).",
    "Fewer than 14 octets: no Ethernet header; look at how the capture was made, and from which link.",
    "The local port is down; look at port.k.up, and the last port_up or port_down of that port.",
    "The source MAC has the group bit (low bit of its first octet): no station may send from a group's address; \
    look at the sender: a broken driver, or a forged frame.",
    "Destination 01-80-C2-00-00-00 to 01-80-C2-00-00-0F: a link-local protocol (spanning tree, LACP, LLDP), which \
    no bridge forwards; there is nothing to look at, where a switch talks to its neighbour; such frames end \
    here.",
    "Type 0x8100 and fewer than 18 octets: the frame ends within its tag; look at the sender, or a capture that \
    cuts frames.",
    "VID 4095, which IEEE 802.1Q reserves; look at the sender's VLAN settings.",
    "The port doesn't accept this type of frame: tagged at a port for untagged ones, or the other way round; a \
    tag with VID 0 counts as none; look at port.k.accept, and whether the far end of the link is a trunk.",
    "No segment has the VID of the tag, or the port's own; look at the list of segments; port.k.pvid for untagged \
    frames.",
    "The port isn't in the segment's member set; look at segment.k.untagged and segment.k.tagged, and set_member \
    changes.",
    "Behind at most two tags (0x8100 or 0x88A8) there is no type 0x0800 or 0x86DD: neither IPv4 nor IPv6 (ARP, \
    LLDP and the like); there is nothing to look at: the underlay's own traffic.",
    "IPv4: fewer than 20 octets, version not 4, IHL below 5, header longer than what is there, total length below \
    the header or beyond what is there. IPv6: fewer than 40 octets, version not 6, payload length beyond what is \
    there; look at the capture's snapshot length; else the sender.",
    "The IPv4 header checksum is wrong: damaged, or left to the card; look at checksum offload on the host where \
    the capture was made.",
    "The outer source is 0.0.0.0, 255.255.255.255, ::, a group or the endpoint's own; look at first the capture: \
    without tcpdump -Q in (Wireshark, dumpcap, tshark) it has the packets that left, too: tep check of all \
    captures asks for it, tep run --both leaves them out; then a loop in the underlay, two endpoints with one \
    address, or a forged packet.",
    "The outer destination is neither a group nor the own address of its family; look at underlay.ip4 and \
    underlay.ip6; a capture of a mirrored port shows others' packets too.",
    "IPv4 MF set or offset not 0; IPv6 next header 44: the underlay fragmented the packet, and a tunnel endpoint \
    doesn't put it together; look at the MTU along the way: it has to be larger than the tenants' by 50 octets \
    over IPv4, 70 over IPv6.",
    "Protocol or next header not 17: another protocol (ICMP, TCP, BGP and the like), or IPv6 extension headers; \
    there is nothing to look at: the underlay's own traffic.",
    "Fewer than 8 octets of IP payload, UDP length below 8 or beyond the IP payload; look at the sender.",
    "The destination port is neither tunnel port; look at underlay.vxlan_port and underlay.geneve_port, where the \
    peer uses others (8472 is an old VXLAN port).",
    "UDP checksum 0 over IPv6 and zero6 is off; look at underlay.zero6, or the peer's checksum setting.",
    "A non-zero UDP checksum is wrong: not the datagram's, nor, where partial is on, the sum of the pseudo header \
    alone; look at checksum offload at the sender, where that is on the machine of the capture (a container, a \
    virtual machine, or without -Q in the capturing host itself); --why says udp checksum left to the card then, \
    tep check and --summary count such, and settings of version 3 with underlay.partial = true take them; \
    docs/RECIPES.md tells how that looks.",
    "Fewer than 8 octets of UDP payload, or Geneve options beyond it: the datagram ends within the tunnel header; \
    look at the sender: something else speaks at the tunnel port.",
    "VXLAN flag I is 0; look at the sender: it isn't VXLAN as in RFC 7348.",
    "Geneve version not 0; look at the sender.",
    "Geneve O is 1: a control packet; there is nothing to look at: such packets carry no frame.",
    "Geneve protocol type not 0x6558: it carries something else than Ethernet; look at the peer's payload \
    setting.",
    "The lengths of Geneve options don't add up to Opt Len; look at the sender.",
    "A Geneve option with the high type bit, which must be understood, isn't on the known list; look at \
    underlay.known, once you know that the option may be ignored.",
    "No segment has this tunnel kind and VNI; look at segment.k.vni and segment.k.tunnel; a peer serves tenants \
    that aren't here: tep run --summary says of which network and whose (unknown).",
    "The outer destination is a group that isn't on this segment's flood list under the packet's tunnel; look at \
    segment.k.flood: a group's address stands on the flood lists of both ends.",
    "The segment's rule is \"listed\" and the outer source isn't on its flood list under the packet's tunnel; \
    look at segment.k.flood, add_flood; or a forged packet.",
    "The inner frame has fewer than 14 octets; look at the sender.",
    "The inner type is 0x8100 and the segment drops inner tags; of a local frame: its body begins with 0x8100 and \
    the segment's tags is never; look at segment.k.tags, and whether the peer, or the station, means to carry \
    tags.",
    "The destination stands where the frame came from: there is nothing to do; look at many of them: first the \
    capture, since without tcpdump -Q in (Wireshark, dumpcap, tshark) a station seems to stand where its frames \
    left: tep check of all captures asks for it, tep run --both leaves these out; then a loop; else two stations \
    behind one port or one remote.",
    "It came from a remote and the destination stands at another remote of one horizon group, which the two do \
    without us; look at which remote the destination is really at; many of them after a move end as soon as it \
    is learned anew.",
    "The destination stands (by a fixed entry) at a local port that is down or no member; look at fix entries, \
    the port's state and its membership.",
    "There is nowhere to flood to; look at the segment's members, their ports' states, and its flood list.",
    "For one outlet: the outer IP packet would be longer than the MTU; look at underlay.mtu and the tenants' MTU: \
    50 octets less over IPv4, 70 over IPv6.",
    "For one outlet: the body begins with 0x8100, a second VLAN tag, and the segment drops inner tags; look at \
    segment.k.tags.",
];
