//! What leaves an endpoint of a frame that was taken, at each place that it goes to.
ghost use Rattle.std.specs.Prelude.{◌≡◌, ◌++◌, [], Ok, IsSome, IsTrue, unwrap_or};
ghost use Rattle.filter_db.specs.declared.place.Place.TheVariants.{Local, Remote};
ghost use Rattle.encapsulate.specs.Remote.{sizes, text_behind};
ghost use Rattle.endpoint_core.specs.Settings.{segment_at};
ghost use Rattle.endpoint_core.specs.StateStep.{can_leave};
ghost use Rattle.endpoint_core.specs.Step.{has_two_tunnels, sent_at};

use crate::Endpoint;
use crate::arrival::Arrival;
use crate::emit::{put_head_in, size_in, tag_in};
use encapsulate::Head;
use filter_db::Place;
use wire::ether::Reason;
use wire::ip_udp::{Addr, Tunnel};

impl Endpoint {
    ghost use Rattle.endpoint_core.specs.Kept.{state_of};

    /// Whether the segment of a frame has two tunnels, so that a remote is told with the kind of its tunnel.
    pub fn has_two_tunnels(&self, came: &Arrival) -> bool
        requires { IsSome (segment_at (state_of self.now).bridges.settings came.now.vid) }
        ensures { result ≡ has_two_tunnels (state_of self.now).bridges.settings.overlay came.now.vid }
    {
        self.state.under().segment(came.vid).tunnels.are_two()
    }

    /// How many octets are sent of a frame at a place where it can leave, or why nothing is: TooBig or InnerTagOut. No head is
    /// made for it.
    pub fn size_at(&self, came: &Arrival, place: Place) -> Result<usize, Reason>
        requires { IsTrue (can_leave (state_of self.now).bridges.settings came.now.vid place) }
        ensures { let S = (state_of self.now).bridges.settings in
            result ≡ sizes (sent_at S came.now.vid came.now.frame place).sent }
    {
        size_in(&self.state, came, place)
    }

    /// Writes the head of the packet in which a frame goes to a remote endpoint where it can leave, in its segment's tunnel of a
    /// kind, over a head. Behind it stand the frame's addresses and its body.
    ///
    /// `TooBig`, `InnerTagOut`: nothing is sent there, and what stands in the head says nothing.
    #[inline(always)]
    pub fn put_head(
        &self,
        came: &Arrival,
        kind: Tunnel,
        addr: Addr,
        head: &mut Head,
    ) -> Result<(), Reason>
        requires { IsTrue (can_leave (state_of self.now).bridges.settings came.now.vid (Remote kind addr)) }
        ensures { let f = came.now.frame in
            text_behind head.new.items f result ≡ (sent_at (state_of self.now).bridges.settings came.now.vid f (Remote kind addr)).sent }
    {
        put_head_in(&self.state, came, kind, addr, head)
    }

    /// The tag that a frame leaves with at a local port where it can leave, if it leaves with one. In front of it stand the
    /// frame's addresses, and behind it its body.
    #[inline(always)]
    pub fn tag_at(&self, came: &Arrival, port: u8) -> Option<[u8; 4]>
        requires { IsTrue (can_leave (state_of self.now).bridges.settings came.now.vid (Local port)) }
        ensures { let f = came.now.frame in
            Ok ((f.dst ++ f.src) ++ (unwrap_or result [] ++ f.body))
            ≡ (sent_at (state_of self.now).bridges.settings came.now.vid f (Local port)).sent }
    {
        tag_in(&self.state, came.vid, &came.frame, port)
    }
}
