//! What one more step brings an adapted input to.
ghost use Rattle.std.specs.Prelude.{◌≡◌, ◌≤◌, ◌<◌, ◌+◌, ◌-◌, [], false, length, take, IfOk, OnErr};
ghost use Rattle.std.specs.Io.KnownBytes.{Keeps};
ghost use Rattle.pcap.specs.Supply.{Spends};
ghost use Rattle.pcapng_input.specs.Adapted.{Begun, Passing, Within, is_of_one};
ghost use Rattle.pcapng_input.specs.State.{IsLess, IsLongIn, IsPart, IsPlaced, IsSound, IsTaken};
ghost use Rattle.pcapng_input.specs.State.{Leads, held_settled, stand_of, state_settled, wanted_size};
ghost use Rattle.pcapng_input.specs.Stops.{StopsFor};
ghost use Rattle.pcapng_input.specs.declared.interface.Selection.{Selection};
ghost use Rattle.pcapng_input.specs.declared.state.State.TheVariants as state;

use crate::block::{LONGEST_BLOCK, is_pcapng};
use crate::context::Context;
use crate::fault::BlockFault;
use crate::gathered::Gathered;
use crate::interface::Selection;
use crate::number::number4;
use crate::ready::Ready;
use crate::settle::{Settled, settle, wanted};
use crate::state::State;
use crate::stop::Stop;
use pcap::stream::Input;
use pcap::text::{Order, global_header};

/// The octets by which the format is told.
const MAGIC: usize = 4;

/// The octets of a block's second length.
const SECOND_LENGTH: usize = 4;

/// How many octets are read at once where there are so many.
const AHEAD: usize = 65_536;

/// Reads the first octets, by which the format is told.
pub fn read_magic<R: Input>(
    context: &Context,
    gathered: &mut Gathered<R>,
    ready: &mut Ready,
) -> Result<State, Stop>
    requires sound { IsSound state.Begun context.now gathered.old }
    requires empty { ready.old ≡ [] }
    ensures leads { IfOk result (λ state. (selection : Selection) → is_of_one selection ≡ false
        → Leads selection Begun gathered.old context.now ready.new gathered.new state) }
    ensures taken { IfOk result (λ state. (selection : Selection) → is_of_one selection ≡ false → IsTaken selection state) }
    ensures sound { IfOk result (λ state. IsSound state context.now gathered.new) }
    ensures ready { OnErr result (ready.new ≡ []) }
    ensures held { OnErr result (gathered.new.held ≡ gathered.old.held) }
    ensures kept { OnErr result (Keeps gathered.old.supply.rest gathered.new.supply.rest) }
    ensures spent { Spends gathered.old.supply gathered.new.supply }
    ensures stops { StopsFor ⊥ gathered.old.supply gathered.new.supply result }
    ensures less { IfOk result (λ next. IsLess state.Begun gathered.old next gathered.new) }
{
    let is_more = gathered.fetch(MAGIC, MAGIC)?;
    let held = gathered.held();
    if is_more && held.len() < MAGIC {
        return Ok(State::Begun);
    }
    if is_pcapng(held) {
        ready.put(&global_header());
        return Ok(State::Within);
    }
    ready.put(held);
    gathered.clear();
    Ok(State::Plain)
}

/// The first octets of a text, so many or all.
fn front(text: &[u8], size: usize) -> &[u8]
    ensures { result.now ≡ take size text.now }
{
    if text.len() > size {
        return &text[..size];
    }
    text
}

/// Where an input stands behind what was made of so many octets in front of what is held.
fn go_on<R: Input>(gathered: &mut Gathered<R>, octets: usize, settled: Settled) -> State
    requires octets { octets ≤ length gathered.old.held }
    requires long { IsLongIn octets settled }
    ensures state { result ≡ state_settled octets settled }
    ensures held { gathered.new ≡ record { held = held_settled gathered.old.held octets settled; supply = gathered.old.supply } }
{
    match settled {
        Settled::Unfinished => State::Within,
        Settled::Long { order, size } => {
            gathered.clear();
            let left = size - (SECOND_LENGTH + octets);
            State::Passing { order, size, left }
        }
        Settled::Taken => {
            gathered.forget(octets);
            State::Within
        }
        Settled::Ended => State::Over,
        Settled::Refused(fault) => State::Faulty(fault),
        Settled::NoMemory => State::NoMemory,
    }
}

/// Reads more of a block of which so many octets are wanted.
fn read_more<R: Input>(
    selection: Selection<'_>,
    context: &mut Context,
    gathered: &mut Gathered<R>,
    ready: &mut Ready,
    wanted: usize,
) -> Result<State, Stop>
    requires placed { IsPlaced context.old 0 gathered.old }
    requires part { IsPart context.old.order gathered.old.held }
    requires wanted { wanted ≡ wanted_size context.old.order gathered.old.held }
    requires empty { ready.old ≡ [] }
    ensures leads { IfOk result (Leads selection.entry (Within context.old) gathered.old context.new ready.new gathered.new) }
    ensures taken { IfOk result (IsTaken selection.entry) }
    ensures sound { IfOk result (λ state. IsSound state context.new gathered.new) }
    ensures context { OnErr result (context.new ≡ context.old) }
    ensures ready { OnErr result (ready.new ≡ []) }
    ensures held { OnErr result (gathered.new.held ≡ gathered.old.held) }
    ensures kept { OnErr result (Keeps gathered.old.supply.rest gathered.new.supply.rest) }
    ensures spent { Spends gathered.old.supply gathered.new.supply }
    ensures stops { StopsFor ⊥ gathered.old.supply gathered.new.supply result }
    ensures less { IfOk result (λ next. IsLess state.Within gathered.old next gathered.new) }
{
    let most = if wanted < AHEAD { AHEAD } else { wanted };
    let is_more = gathered.fetch(wanted, most)?;
    if is_more {
        return Ok(State::Within);
    }
    let held = gathered.held();
    let octets = held.len();
    let settled = settle(selection, context, ready, held, false);
    Ok(go_on(gathered, octets, settled))
}

/// Takes the block that stands in front of what is held, or reads more of it.
pub fn take_block<R: Input>(
    selection: Selection<'_>,
    context: &mut Context,
    gathered: &mut Gathered<R>,
    ready: &mut Ready,
) -> Result<State, Stop>
    requires placed { IsPlaced context.old 0 gathered.old }
    requires empty { ready.old ≡ [] }
    ensures leads { IfOk result (Leads selection.entry (Within context.old) gathered.old context.new ready.new gathered.new) }
    ensures taken { IfOk result (IsTaken selection.entry) }
    ensures sound { IfOk result (λ state. IsSound state context.new gathered.new) }
    ensures context { OnErr result (context.new ≡ context.old) }
    ensures ready { OnErr result (ready.new ≡ []) }
    ensures held { OnErr result (gathered.new.held ≡ gathered.old.held) }
    ensures kept { OnErr result (Keeps gathered.old.supply.rest gathered.new.supply.rest) }
    ensures spent { Spends gathered.old.supply gathered.new.supply }
    ensures stops { StopsFor ⊥ gathered.old.supply gathered.new.supply result }
    ensures less { IfOk result (λ next. IsLess state.Within gathered.old next gathered.new) }
{
    let held = gathered.held();
    let wanted = wanted(context.order(), held);
    let part = front(held, wanted);
    let octets = part.len();
    match settle(selection, context, ready, part, true) {
        Settled::Unfinished => read_more(selection, context, gathered, ready, wanted),
        settled => Ok(go_on(gathered, octets, settled)),
    }
}

/// Reads what stands in front of the second length of a block that is passed over.
pub fn pass_body<R: Input>(
    context: &Context,
    gathered: &mut Gathered<R>,
    ready: &mut Ready,
    order: Order,
    size: usize,
    left: usize,
) -> Result<State, Stop>
    requires sound { IsSound (state.Passing order size left) context.now gathered.old }
    requires some { 0 < left }
    requires empty { ready.old ≡ [] }
    ensures leads { IfOk result (λ state. (selection : Selection)
        → Leads selection (Passing context.now order size left) gathered.old context.now ready.new gathered.new state) }
    ensures taken { IfOk result (λ state. (selection : Selection) → IsTaken selection state) }
    ensures sound { IfOk result (λ state. IsSound state context.now gathered.new) }
    ensures ready { OnErr result (ready.new ≡ []) }
    ensures held { OnErr result (gathered.new.held ≡ gathered.old.held) }
    ensures kept { OnErr result (Keeps gathered.old.supply.rest gathered.new.supply.rest) }
    ensures spent { Spends gathered.old.supply gathered.new.supply }
    ensures stops { StopsFor ⊥ gathered.old.supply gathered.new.supply result }
    ensures less { IfOk result (λ next. IsLess (state.Passing order size left) gathered.old next gathered.new) }
{
    let wanted = if left < LONGEST_BLOCK {
        left
    } else {
        LONGEST_BLOCK
    };
    let is_more = gathered.fetch(wanted, wanted)?;
    if !is_more {
        ready.put(&[0]);
        return Ok(State::Over);
    }
    let left = left - gathered.held().len();
    gathered.clear();
    Ok(State::Passing { order, size, left })
}

/// Reads the second length of a block that is passed over.
pub fn pass_end<R: Input>(
    context: &mut Context,
    gathered: &mut Gathered<R>,
    ready: &mut Ready,
    order: Order,
    size: usize,
) -> Result<State, Stop>
    requires sound { IsSound (state.Passing order size 0) context.old gathered.old }
    requires empty { ready.old ≡ [] }
    ensures leads { IfOk result (λ state. (selection : Selection)
        → Leads selection (Passing context.old order size 0) gathered.old context.new ready.new gathered.new state) }
    ensures taken { IfOk result (λ state. (selection : Selection) → IsTaken selection state) }
    ensures sound { IfOk result (λ state. IsSound state context.new gathered.new) }
    ensures context { OnErr result (context.new ≡ context.old) }
    ensures ready { OnErr result (ready.new ≡ []) }
    ensures held { OnErr result (gathered.new.held ≡ gathered.old.held) }
    ensures kept { OnErr result (Keeps gathered.old.supply.rest gathered.new.supply.rest) }
    ensures spent { Spends gathered.old.supply gathered.new.supply }
    ensures stops { StopsFor ⊥ gathered.old.supply gathered.new.supply result }
    ensures less { IfOk result (λ next. IsLess (state.Passing order size 0) gathered.old next gathered.new) }
{
    let is_more = gathered.fetch(SECOND_LENGTH, SECOND_LENGTH)?;
    let held = gathered.held();
    if !is_more {
        ready.put(&[0]);
        return Ok(State::Over);
    }
    if held.len() < SECOND_LENGTH {
        return Ok(State::Passing {
            order,
            size,
            left: 0,
        });
    }
    if number4(order, held) as usize != size {
        return Ok(State::Faulty(context.fault(BlockFault::BadLength)));
    }
    context.skip(size as u64);
    gathered.clear();
    Ok(State::Within)
}

/// One step: what is held brings it, or one read below. At the end, at a fault and in a text that is told as it is there is
/// none here.
pub fn read_on<R: Input>(
    selection: Selection<'_>,
    context: &mut Context,
    gathered: &mut Gathered<R>,
    ready: &mut Ready,
    state: State,
) -> Result<State, Stop>
    requires sound { IsSound state context.old gathered.old }
    requires taken { IsTaken selection state }
    requires empty { ready.old ≡ [] }
    ensures leads { IfOk result (Leads selection.entry (stand_of state context.old) gathered.old context.new ready.new gathered.new) }
    ensures taken { IfOk result (IsTaken selection.entry) }
    ensures sound { IfOk result (λ state. IsSound state context.new gathered.new) }
    ensures context { OnErr result (context.new ≡ context.old) }
    ensures ready { OnErr result (ready.new ≡ []) }
    ensures held { OnErr result (gathered.new.held ≡ gathered.old.held) }
    ensures kept { OnErr result (Keeps gathered.old.supply.rest gathered.new.supply.rest) }
    ensures spent { Spends gathered.old.supply gathered.new.supply }
    ensures stops { StopsFor ⊥ gathered.old.supply gathered.new.supply result }
    ensures less { IfOk result (λ next. IsLess state gathered.old next gathered.new) }
{
    match state {
        State::Begun => read_magic(context, gathered, ready),
        State::Within => take_block(selection, context, gathered, ready),
        State::Passing { order, size, left } => {
            if left > 0 {
                return pass_body(context, gathered, ready, order, size, left);
            }
            pass_end(context, gathered, ready, order, size)
        }
        // nothing more is asked for there
        _ => Err(Stop::NoMemory),
    }
}
