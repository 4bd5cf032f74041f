//! What is known of the packets of one interface.
ghost use Rattle.std.specs.Prelude.{◌≡◌, ◌<◌, ◌+◌, ◌^◌, Some};
ghost use Rattle.split_on_files.specs.Lanes.{empty_lane};

use pcap::text::Record;
use pcapng_input::PcapngFault;

/// What is known of the packets of one interface in front of a block.
#[derive(Clone, Copy)]
pub struct Lane {
    /// The moment of the last one, in nanoseconds, 0 where there is none.
    pub last: u64,
    /// How many were left out, since they are outbound.
    pub left_out: u64,
    /// Their first fault.
    pub fault: Option<PcapngFault>,
}

/// Of an interface of which nothing came yet.
pub fn empty_lane() -> Lane
    ensures { result ≡ empty_lane }
{
    Lane {
        last: 0,
        left_out: 0,
        fault: None,
    }
}

/// What is known of the packets of an interface behind one more.
pub fn behind_packet(lane: Lane, packet: &Record<'_>) -> Lane
    ensures { result ≡ record lane { last = packet.now.moment } }
{
    Lane {
        last: packet.moment,
        left_out: lane.left_out,
        fault: lane.fault,
    }
}

/// The same behind one that is left out.
pub fn behind_outbound(lane: Lane) -> Lane
    requires { lane.left_out + 1 < 2 ^ 64 }
    ensures { result ≡ record lane { left_out = lane.left_out + 1 } }
{
    Lane {
        last: lane.last,
        left_out: lane.left_out + 1,
        fault: lane.fault,
    }
}

/// The same at their first fault.
pub fn at_fault(lane: Lane, fault: PcapngFault) -> Lane
    ensures { result ≡ record lane { fault = Some fault } }
{
    Lane {
        last: lane.last,
        left_out: lane.left_out,
        fault: Some(fault),
    }
}
