//! The shares of all segments together.
//!
//! What the limits sum to, and how many segments stand, is counted over the 4,096 places of the shares when it is asked for:
//! only a change of segments asks, and a sum that is kept beside the shares could differ from them. That no slot holds an
//! entry of a VID without a segment is no field of the tables' invariant: each slot is free or counted by a share, so nothing
//! is left for another VID. An added segment is empty by that count.
ghost use Rattle.std.specs.Prelude.{◌≡◌, ◌<◌, None, slice_set, vec_len};
ghost use Rattle.std.specs.List.{sum_by};
ghost use Rattle.shared_tables.specs.SlotsOfSegments.{share_limit};
ghost use Rattle.shared_tables.specs.Standing.{one_there};

use crate::share::Share;
use wire::ether::Vid;

/// The limit of a segment; 0 where there is none.
fn limit_of(share: &Option<Share>) -> u32
    ensures { result ≡ share_limit share.now }
{
    match share {
        Some(share) => share.limit,
        None => 0,
    }
}

/// 1 where there is a segment.
fn one_of(share: &Option<Share>) -> u32
    ensures { result ≡ one_there share.now }
{
    u32::from(share.is_some())
}

/// What the limits of all segments come to.
pub fn sum_of_limits(shares: &[Option<Share>]) -> u32
    requires { sum_by share_limit shares.now < 4294967296 }
    ensures { result ≡ sum_by share_limit shares.now }
{
    shares.iter().map(|share| limit_of(share)).sum()
}

/// How many segments there are.
pub fn segment_count(shares: &[Option<Share>]) -> u32
    requires { sum_by one_there shares.now < 4294967296 }
    ensures { result ≡ sum_by one_there shares.now }
{
    shares.iter().map(|share| one_of(share)).sum()
}

/// Takes the share of a VID's segment out.
pub fn strike(shares: &mut Vec<Option<Share>>, vid: Vid)
    requires { vec_len shares.old ≡ 4096 }
    ensures items { shares.new.items ≡ slice_set shares.old.items vid None }
    ensures in_range { vid < 4096 }
{
    shares[usize::from(vid.get())] = None;
}
