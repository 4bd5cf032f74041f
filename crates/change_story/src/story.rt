//! The story of a change.
ghost use Rattle.std.specs.Prelude.{◌≡◌, ◌≤◌, [], ◌∷◌, ◌++◌, IfOk, OnOk, codes, decimal, string_bytes, true};
ghost use Rattle.endpoint_core.specs.Change.{is_vni_of};
ghost use Rattle.endpoint_core.specs.Held.{moment_of, state_at};
ghost use Rattle.endpoint_core.specs.State.{fault};
ghost use Rattle.endpoint_core.specs.Kept.{state_of};
ghost use Rattle.decision_lines.specs.Lines.{reply_text};
ghost use Rattle.change_story.specs.Checks.{AreVnis, found_unless, refusal};
ghost use Rattle.change_story.specs.Seen.{seen_text};
ghost use Rattle.change_story.specs.Story.{change_facts, change_story};

use crate::asked::put_change;
use crate::check::Check;
use crate::checks::checks_of;
use crate::found::found;
use crate::line::{put_seen, put_told};
use crate::words::put_line_front;
use endpoint_core::Endpoint;
use endpoint_core::state::{Change, ChangeFault, EndpointState};
use overlay::underlay::Tunnels;
use std::alloc::{AllocError, Global};
use std::fmt::Write;
use timeline::Event;
use wire::ip_udp::Tunnel;

/// The story of an event of this number by which a change comes to an endpoint, in the state in which it comes: what it asks
/// for, what each check saw, a line each, in the order of the checks up to the one that refuses, what it finds of what it
/// changes where none refuses it, and last the decision line. A change has no story that would come before the last event.
/// The endpoint stays as it is. `AllocError`: there was no room for the text, or for the list of checks.
pub fn story_of_change(
    alloc: Global,
    endpoint: &Endpoint,
    number: u64,
    event: &Event,
    change: Change,
) -> Result<Vec<u8>, AllocError>
    ensures { IfOk result (λ text. text.items ≡ change_story (state_of endpoint.now) number event.now change) }
{
    if event.moment < endpoint.now() {
        return Ok(Vec::new(alloc));
    }
    let mut text = String::new(alloc);
    let fault = put_facts(&mut text, alloc, endpoint.state(), event.moment, &change)?;
    put_line_front(&mut text, number, event, change.vid())?;
    put_reply(&mut text, fault)?;
    put_end(&mut text)?;
    Ok(text.into_bytes())
}

/// Puts all but the decision line of a change at a moment, and answers why it is refused, if it is.
fn put_facts(
    text: &mut String,
    alloc: Global,
    state: &EndpointState,
    now: u64,
    change: &Change,
) -> Result<Option<ChangeFault>, AllocError>
    requires time { moment_of state.now ≤ now }
    ensures text { OnOk result (string_bytes text.new ≡ string_bytes text.old ++ change_facts (state_at now state.now) change.now) }
    ensures fault { IfOk result (λ why. why ≡ fault (state_at now state.now) change.now) }
{
    // In range by their type.
    let _vnis = vnis_of(*change);
    let checks = checks_of(alloc, state, now, *change)?;
    let fault = refusal(&checks);
    put_change(text, *change)?;
    put_told(text, &checks)?;
    put_found(text, state, now, *change, fault)?;
    Ok(fault)
}

/// The VNIs of a segment that is to come. Nothing is asked of their ranges: their type has no other numbers.
fn vnis_of(change: Change) -> (Option<u32>, Option<u32>)
    ensures { AreVnis change }
{
    match change {
        Change::AddSegment(new) => (
            vni_of(&new.tunnels, Tunnel::Vxlan),
            vni_of(&new.tunnels, Tunnel::Geneve),
        ),
        _ => (None, None),
    }
}

/// The VNI of the tunnel of a kind, where there is one.
fn vni_of(tunnels: &Tunnels, kind: Tunnel) -> Option<u32>
    ensures { is_vni_of kind tunnels.now ≡ true }
{
    let tunnel = tunnels.of(kind)?;
    Some(tunnel.vni.get())
}

/// Why the first check that refuses does.
fn refusal(checks: &[Check]) -> Option<ChangeFault>
    ensures { result ≡ refusal checks.now }
{
    for check in checks {
        if check.fails {
            return Some(check.fault);
        }
    }
    None
}

/// Puts what a change finds of what it changes, unless it is refused.
fn put_found(
    text: &mut String,
    state: &EndpointState,
    now: u64,
    change: Change,
    fault: Option<ChangeFault>,
) -> Result<(), AllocError>
    requires time { moment_of state.now ≤ now }
    ensures { OnOk result (string_bytes text.new
        ≡ string_bytes text.old ++ seen_text (found_unless fault (state_at now state.now) change)) }
{
    match fault {
        Some(_) => Ok(()),
        None => match found(state, now, change) {
            Some(seen) => put_seen(text, seen),
            None => Ok(()),
        },
    }
}

/// Puts the end of a line.
fn put_end(text: &mut String) -> Result<(), AllocError>
    ensures { OnOk result (string_bytes text.new ≡ string_bytes text.old ++ 10 ∷ []) }
{
    text.push('\n')
}

/// Puts what a change is answered.
fn put_reply(text: &mut String, fault: Option<ChangeFault>) -> Result<(), AllocError>
    ensures { OnOk result (string_bytes text.new ≡ string_bytes text.old ++ reply_text fault) }
{
    match fault {
        None => text.push_str("done"),
        Some(fault) => put_refused(text, fault.number(), fault.name()),
    }
}

fn put_refused(text: &mut String, number: u8, name: &str) -> Result<(), AllocError>
    ensures { OnOk result (string_bytes text.new
        ≡ string_bytes text.old ++ (codes "refused " ++ decimal number ++ codes " " ++ name.now)) }
{
    write!(text, "refused {number} {name}")
}
