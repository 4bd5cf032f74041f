//! What leaves at a place, put together.
ghost use Rattle.std.specs.Prelude.{◌≡◌, ◌≤◌, [], IsTrue, Ok, length, unwrap_or};
ghost use Rattle.filter_db.specs.declared.place.Place.TheVariants.{Local, Remote};
ghost use Rattle.endpoint_core.specs.StateStep.{can_leave};
ghost use Rattle.endpoint_core.specs.Kept.{state_of};
ghost use Rattle.endpoint_core.specs.Step.{sent_at};
ghost use Rattle.run_view.specs.View.{gathered};

use crate::record::Record;
use encapsulate::Head;
use endpoint_core::{Arrival, Endpoint};
use filter_db::Place;
use wire::ether::Reason;
use wire::ip_udp::{Addr, Tunnel};

/// Puts together what leaves of a frame at a place, or tells why nothing does.
#[inline]
pub(crate) fn gather(
    leaving: &mut Record,
    head: &mut Head,
    endpoint: &Endpoint,
    came: &Arrival,
    place: Place,
) -> Result<(), Reason>
    requires leave { IsTrue (can_leave (state_of endpoint.now).bridges.settings came.now.vid place) }
    requires short { length came.now.frame.body ≤ 65549 }
    ensures { gathered leaving.new result
        ≡ (sent_at (state_of endpoint.now).bridges.settings came.now.vid came.now.frame place).sent }
{
    match place {
        Place::Local(port) => {
            gather_local(leaving, endpoint, came, port);
            Ok(())
        }
        Place::Remote(kind, addr) => gather_remote(leaving, head, endpoint, came, kind, addr),
    }
}

/// The same at a local port.
#[inline]
fn gather_local(leaving: &mut Record, endpoint: &Endpoint, came: &Arrival, port: u8)
    requires leave { IsTrue (can_leave (state_of endpoint.now).bridges.settings came.now.vid (Local port)) }
    requires short { length came.now.frame.body ≤ 65549 }
    ensures { Ok leaving.new
        ≡ (sent_at (state_of endpoint.now).bridges.settings came.now.vid came.now.frame (Local port)).sent }
{
    let tag = endpoint.tag_at(came, port);
    let frame = came.frame();
    leaving.gather(frame.addresses, octets_of(&tag), frame.body);
}

/// The same for a remote endpoint.
#[inline]
fn gather_remote(
    leaving: &mut Record,
    head: &mut Head,
    endpoint: &Endpoint,
    came: &Arrival,
    kind: Tunnel,
    addr: Addr,
) -> Result<(), Reason>
    requires leave { IsTrue (can_leave (state_of endpoint.now).bridges.settings came.now.vid (Remote kind addr)) }
    requires short { length came.now.frame.body ≤ 65549 }
    ensures { gathered leaving.new result
        ≡ (sent_at (state_of endpoint.now).bridges.settings came.now.vid came.now.frame (Remote kind addr)).sent }
{
    if let Err(reason) = endpoint.put_head(came, kind, addr, head) {
        return Err(reason);
    }
    let frame = came.frame();
    leaving.gather(head.as_slice(), frame.addresses, frame.body);
    Ok(())
}

/// The octets of a tag, if there is one.
#[inline]
fn octets_of(tag: &Option<[u8; 4]>) -> &[u8]
    ensures value { result.now ≡ unwrap_or tag.now [] }
    ensures few { length result.now ≤ 4 }
{
    match tag {
        Some(tag) => tag,
        None => &[],
    }
}
