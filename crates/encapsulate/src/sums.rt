//! What all packets with one frame share.
//!
//! What depends on the frame alone (source port, sum of its octets) is computed once for all its remotes, and the sum only
//! where one of them gets a checksum. A further remote of a frame of 1,400 octets costs 171 instructions in place of 586, a
//! single one 714 in place of 643.
ghost use Rattle.std.specs.Prelude.{◌≡◌, ◌≤◌, ◌+◌, ◌++◌, ◌^◌, IfSome, is_some};
ghost use Rattle.wire.specs.Sum.{total};
ghost use Rattle.encapsulate.specs.Packet.{frame_sum};
ghost use Rattle.encapsulate.specs.Sums.{AreSums};

use crate::flow::source_port;
use wire::ether::BridgeFrame;
use wire::octets::{fold, folded, words};

/// What depends on a frame alone in the packets that it is sent in, computed once for all of them: the source port of
/// its flow, and the folded sum of its octets, where it was taken.
#[derive(Clone, Copy, Debug, PartialEq, Eq)]
pub struct FrameSums {
    pub(crate) port: u16,
    sum: Option<u16>,
}

impl FrameSums {
    /// Those of a frame, whose octets are summed where a packet with a checksum is to be sent.
    #[inline(always)]
    pub fn of(frame: &BridgeFrame, is_summed: bool) -> FrameSums
        ensures sums { AreSums frame.now result }
        ensures summed { is_some result.sum ≡ is_summed }
    {
        let stations = stations_sum(frame);
        let sum = if is_summed {
            Some(frame_sum(frame, stations))
        } else {
            None
        };
        FrameSums {
            port: source_port(frame, stations),
            sum,
        }
    }

    /// The sum of the frame's octets where a checksum is computed.
    pub(crate) fn for_checksum(&self, is_computed: bool, frame: &BridgeFrame) -> Option<u16>
        requires { AreSums frame.now self.now }
        ensures sum { IfSome result (λ n. n ≡ frame_sum frame.now) }
        ensures computed { is_some result ≡ is_computed }
    {
        if !is_computed {
            return None;
        }
        match self.sum {
            Some(sum) => Some(sum),
            None => Some(frame_sum(frame, stations_sum(frame))),
        }
    }
}

/// The sum of a frame's addresses.
fn stations_sum(frame: &BridgeFrame) -> u64
    ensures each { result ≡ total frame.now.dst + total frame.now.src }
    ensures whole { result ≡ total (frame.now.dst ++ frame.now.src) }
    ensures small { result ≤ 2 ^ 24 }
{
    let destination = frame.dst();
    let source = frame.src();
    words(&destination.0) + words(&source.0)
}

/// The folded sum of a frame's octets, without a tag, by the sum of its addresses.
fn frame_sum(frame: &BridgeFrame, stations: u64) -> u16
    requires stations { stations ≡ total (frame.now.dst ++ frame.now.src) }
    requires small { stations ≤ 2 ^ 24 }
    ensures { result ≡ frame_sum frame.now }
{
    fold(stations + u64::from(folded(frame.body)))
}
