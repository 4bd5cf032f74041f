//! Laws about the definitions: each is the contract of a function that does nothing.
ghost use Rattle.wire.specs.IpLaws.{IpSplitIsFound, IpSplitIsOnly, BadIpHasNoSplit, UdpSplitIsFound};
ghost use Rattle.wire.specs.IpLaws.{UdpSplitIsOnly, BadUdpHasNoSplit, DatagramIsFound, DatagramIsOnly};

/// A text is an IP packet and a trailer exactly where it isn't `BadIp`, and in one way.
pub fn ip_split()
    ensures found { IpSplitIsFound }
    ensures only { IpSplitIsOnly }
    ensures none { BadIpHasNoSplit }
{}

/// A text is a UDP datagram and a tail exactly where it isn't `BadUdp`, and in one way.
pub fn udp_split()
    ensures found { UdpSplitIsFound }
    ensures only { UdpSplitIsOnly }
    ensures none { BadUdpHasNoSplit }
{}

/// A text is an Ethernet frame with a UDP datagram in it exactly where no reason says otherwise, and in one way.
pub fn datagram_split()
    ensures found { DatagramIsFound }
    ensures only { DatagramIsOnly }
{}
