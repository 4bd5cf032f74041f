//! The frame that an event brings.
ghost use Rattle.std.specs.Prelude.{◌≡◌};
ghost use Rattle.endpoint_core.specs.Kept.{state_of};
ghost use Rattle.talkers.specs.Passed.{one_frame};
ghost use Rattle.stream_run.specs.Sights.{IsBrought};
ghost use Rattle.talkers.specs.Talkers.{coming_by, coming_of, talk_of};

use crate::rows::{Exit, Passed, Talk};
use endpoint_core::{Endpoint, Forwarding};
use filter_db::Place;
use timeline::Happening;
use wire::ether::{Mac, Vid};

/// The octets of both addresses.
const ADDRESSES: u64 = 12;

/// A frame that comes to a segment.
#[derive(Clone, Copy)]
pub struct Coming {
    /// Of the segment.
    pub vid: Vid,
    pub source: Mac,
    /// Where it comes from.
    pub from: Place,
    pub destination: Mac,
    /// Its octets, without its outermost tag.
    pub octets: u64,
    /// When it comes, in nanoseconds.
    pub moment: u64,
}

impl Coming {
    /// The talk that it belongs to, where it goes there.
    pub(crate) fn talk(&self, to: Exit) -> Talk
        ensures { result ≡ talk_of self.now to }
    {
        Talk {
            vid: self.vid,
            source: self.source,
            from: self.from,
            destination: self.destination,
            to,
        }
    }

    /// What it counts as.
    pub(crate) fn passed(&self) -> Passed
        ensures { result ≡ one_frame self.now.octets self.now.moment }
    {
        Passed::one(self.octets, self.moment)
    }
}

/// Keeps the frame that what happens brings to a segment, where it brings one. It is written where it lies: a result in its place
/// would be put together and copied.
#[inline(always)]
pub(crate) fn keep_coming(
    endpoint: &Endpoint,
    moment: u64,
    happening: &Happening,
    came: &Forwarding,
    coming: &mut Option<Coming>,
)
    requires { IsBrought (state_of endpoint.now).bridges.settings happening.now came.now }
    ensures { coming.new ≡ coming_of (state_of endpoint.now).bridges.settings moment happening.now }
{
    match happening {
        Happening::Change(_) => *coming = None,
        Happening::Record(_, _) => keep_by(moment, came, coming),
    }
}

/// Keeps a frame that comes to a segment, where it does.
#[inline(always)]
fn keep_by(moment: u64, came: &Forwarding, coming: &mut Option<Coming>)
    ensures { coming.new ≡ coming_by moment came.now }
{
    match came {
        Ok(came) => {
            let frame = came.frame();
            *coming = Some(Coming {
                vid: came.segment(),
                source: frame.src(),
                from: came.place(),
                destination: frame.dst(),
                octets: ADDRESSES + frame.body.len() as u64,
                moment,
            });
        }
        Err(_) => *coming = None,
    }
}
