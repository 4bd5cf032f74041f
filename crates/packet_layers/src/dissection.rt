//! Taking packets apart.
ghost use Rattle.std.specs.Prelude.{◌≡◌, ◌≤◌, ◌+◌, ◌*◌, length, OnOk};
ghost use Rattle.wire.specs.First.{fault_of};
ghost use Rattle.packet_layers.specs.Apart.{joined};
ghost use Rattle.packet_layers.specs.Dissection.{dissection, frame_off};
ghost use Rattle.packet_layers.specs.Laws.{AllStand, AgreesWithArrival};

use crate::apart::Apart;
use crate::ether::take_ether;
use crate::ip::take_ip;
use crate::tunnel::take_tunnel;
use crate::udp::{check_sum, take_udp};
use crate::{Layers, Stop};
use overlay::underlay::Overlay;
use wire::ether::Reason;

/// Takes a packet apart into layers that are there, in place of what they were, with at most `depth` tunnel headers, 1 to 4.
/// Nothing is copied.
pub fn dissect<'a>(layers: &mut Layers<'a>, octets: &'a [u8], under: &Overlay, depth: usize)
    requires low { 1 ≤ depth }
    requires high { depth ≤ 4 }
    ensures layers { layers.new ≡ dissection under.now depth octets.now }
    ensures whole { joined layers.new.apart ≡ octets.now }
    ensures places { AllStand octets.now layers.new.apart }
    ensures agrees { AgreesWithArrival under.now octets.now layers.new }
{
    let stop = take_layers(&mut layers.apart, octets, under, depth);
    layers.stop = stop;
}

/// Takes off the layers of a packet, frame by frame, and answers why no more is taken off.
fn take_layers<'a>(apart: &mut Apart<'a>, octets: &'a [u8], under: &Overlay, depth: usize) -> Stop
    requires { depth ≤ 4 }
    ensures { record { apart = apart.new; stop = result } ≡ dissection under.now depth octets.now }
{
    apart.begin(octets);
    let mut left = depth;
    loop {
        match take_frame(apart, under, left) {
            Ok(()) => left -= 1,
            Err(stop) => return stop,
        }
    }
}

/// Takes off the layers of the frame that is left, where so many more tunnel headers may be taken off.
fn take_frame(apart: &mut Apart, under: &Overlay, left: usize) -> Result<(), Stop>
    requires heads { length apart.old.heads + 7 * left ≤ 28 }
    requires tails { length apart.old.tails + 2 * left ≤ 8 }
    ensures taken { frame_off under.now left apart.old ≡ record { apart = apart.new; stop = fault_of result } }
    ensures left { OnOk result (1 ≤ left) }
    ensures few_heads { length apart.new.heads ≤ length apart.old.heads + 7 }
    ensures few_tails { length apart.new.tails ≤ length apart.old.tails + 2 }
{
    let typed = take_ether(apart)?;
    let packet = take_ip(apart, typed)?;
    let view = take_udp(apart, &packet)?;
    let Some(kind) = under.kind_at(view.dport()) else {
        return Err(Stop::At(Reason::NotTunnel));
    };
    if left == 0 {
        return Err(Stop::Deep);
    }
    check_sum(&view, &packet, under.settings())?;
    take_tunnel(apart, under.known(), kind)?;
    Ok(())
}
