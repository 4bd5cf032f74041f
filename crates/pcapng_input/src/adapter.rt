//! An input of a capture below its counts.
ghost use Rattle.std.specs.Prelude.{◌≡◌, ◌<◌, ◌≤◌, ℕ, [], Option, Some, None, min, length, option_map, take, IfOk, IfSome, IsSome, OnOk};
ghost use Rattle.std.specs.Io.{ReadsAtMost};
ghost use Rattle.std.specs.Io.KnownBytes.{ReadConsumes};
ghost use Rattle.pcap.specs.Supply.{Spends, untouched};
ghost use Rattle.pcapng_input.specs.Adapted.{is_of_one, told_text};
ghost use Rattle.pcapng_input.specs.Adapter.{IsAllTold, KeepsFault, KeepsTold, TellsBehind};
ghost use Rattle.pcapng_input.specs.Adapter.{left_out_by, met_fault, told, told_fault, told_octets};
ghost use Rattle.pcapng_input.specs.State.{steps_at};
ghost use Rattle.pcapng_input.specs.Stops.{StopsFor};

use crate::context::Context;
use crate::fault::PcapngFault;
use crate::gathered::Gathered;
use crate::interface::Selection;
use crate::reading::read_on;
use crate::ready::Ready;
use crate::state::State;
use crate::stop::Stop;
use pcap::stream::Input;
use pcap::text::global_header;
use std::alloc::{AllocError, Global};
use std::marker::Model;

/// The reads of an input at most. Those of so many blocks have fewer than 2^64 octets.
const MOST_READS: u64 = 35_184_372_088_832;

/// An input of a capture: what was read of it, what is ready of what it tells, and where it stands.
#[derive(Drop)]
pub struct Adapter<'s, R: Input> {
    selection: Selection<'s>,
    context: Context,
    gathered: Gathered<R>,
    ready: Ready,
    state: State,
}

impl<'s, R: Input> Model for Adapter<'s, R> {
    ghost use Rattle.std.specs.Prelude.{◌≡◌, false};
    ghost use Rattle.pcapng_input.specs.Adapted.{is_of_one};
    ghost use Rattle.pcapng_input.specs.Adapter.{Adapter};
    ghost use Rattle.pcapng_input.specs.State.{IsSound, IsTaken, stand_of};

    ghost Value = { Adapter };

    ghost view = { λ a. record {
      selection = a.selection;
      ready = a.ready;
      stand = stand_of a.state a.context;
      below = a.gathered;
    } };

    ghost invariant = { λ a. IsSound a.state a.context a.gathered × IsTaken a.selection a.state };
}

/// Whether the packets of one interface are asked for.
fn is_of_one(selection: Selection<'_>) -> bool
    ensures { result ≡ is_of_one selection.entry }
{
    match selection {
        Selection::All => false,
        Selection::Number(_) => true,
        Selection::Name(_) => true,
    }
}

impl<'s, R: Input> Adapter<'s, R> {
    /// Reserves room for the first octets, and reads nothing.
    pub fn new(
        alloc: Global,
        input: R,
        selection: Selection<'s>,
        reads: u64,
    ) -> Result<Adapter<'s, R>, AllocError>
    where
        R: Drop,
        ensures told { IfOk result (λ adapter. told adapter ≡ option_map (told_text selection.entry) (R.remaining input)) }
        ensures supply { IfOk result (λ adapter. adapter.below.supply
            ≡ untouched (R.remaining input) (R.calls input) (R.failures input) (min reads 35184372088832)) }
        ensures fault { IfOk result (λ adapter. met_fault adapter ≡ None) }
    {
        let reads = if reads < MOST_READS {
            reads
        } else {
            MOST_READS
        };
        let gathered = Gathered::new(alloc, input, reads)?;
        let mut ready = Ready::new(alloc)?;
        let state = if is_of_one(selection) {
            ready.put(&global_header());
            State::Within
        } else {
            State::Begun
        };
        Ok(Adapter {
            selection,
            context: Context::new(alloc),
            gathered,
            ready,
            state,
        })
    }

    /// The fault that was met.
    pub fn fault(&self) -> Option<PcapngFault>
        ensures met { result ≡ met_fault self.now }
        ensures exact { IfSome result (λ fault. IfSome (told_fault self.now) (λ told. told ≡ Some fault)) }
    {
        match self.state {
            State::Faulty(fault) => Some(fault),
            _ => None,
        }
    }

    /// How many packets were left out yet, since they are outbound.
    pub fn left_out(&self) -> u64
        ensures { result ≡ left_out_by self.now }
    {
        match self.state {
            State::Begun | State::Plain => 0,
            _ => self.context.left_out(),
        }
    }

    /// Gives what is told next, by as many reads below as it takes.
    pub fn give(&mut self, octets: &mut [u8]) -> Result<usize, Stop>
        ensures bound { ReadsAtMost result octets.new }
        ensures taken { ReadConsumes (told_octets self.old) (told_octets self.new) result octets.new }
        ensures fault { KeepsFault (told_fault self.old) (told_fault self.new) }
        ensures all { IfOk result (λ n. n ≡ 0 → 0 < length octets.new → IsAllTold (left_out_by self.new) (told self.new)) }
        ensures spent { Spends self.old.below.supply self.new.below.supply }
        ensures stops { StopsFor (IsSome (met_fault self.new)) self.old.below.supply self.new.below.supply result }
    {
        if octets.is_empty() {
            return Ok(0);
        }
        while self.ready.is_empty() {
            match self.state {
                State::Over => return Ok(0),
                State::NoMemory => return Err(Stop::NoMemory),
                State::Faulty(_) => return Err(Stop::Fault),
                State::Plain => return self.gathered.pass(octets),
                State::Within => {
                    let given = self.give_packets(octets);
                    if given > 0 {
                        return Ok(given);
                    }
                    self.advance()?;
                }
                _ => self.advance()?,
            }
        }
        Ok(self.ready.give(octets))
    }

    /// Gives the packets that stand whole in front of what is held, in front of a block, as far as there is room.
    fn give_packets(&mut self, octets: &mut [u8]) -> usize
        requires { self.old.ready ≡ [] }
        ensures bound { result ≤ length octets.new }
        ensures told { TellsBehind (told self.old) (take result octets.new) (told self.new) }
        ensures spent { Spends self.old.below.supply self.new.below.supply }
        ensures quiet { self.new.below.supply.failures ≡ self.old.below.supply.failures }
        ensures steps { steps_at self.new.stand self.new.below ≤ steps_at self.old.stand self.old.below }
        ensures ready { self.new.ready ≡ [] }
    {
        let State::Within = self.state else {
            return 0;
        };
        let done = self.context.give_packets(self.gathered.held(), octets);
        self.gathered.forget(done.used);
        done.given
    }

    /// One step: what is held brings it, or one read below.
    fn advance(&mut self) -> Result<(), Stop>
        requires { self.old.ready ≡ [] }
        ensures kept { KeepsTold (told self.old) (told self.new) }
        ensures spent { Spends self.old.below.supply self.new.below.supply }
        ensures stops { StopsFor ⊥ self.old.below.supply self.new.below.supply result }
        ensures less { OnOk result (steps_at self.new.stand self.new.below < steps_at self.old.stand self.old.below) }
    {
        match read_on(
            self.selection,
            &mut self.context,
            &mut self.gathered,
            &mut self.ready,
            self.state,
        ) {
            Ok(state) => {
                self.state = state;
                match state {
                    State::NoMemory => Err(Stop::NoMemory),
                    _ => Ok(()),
                }
            }
            Err(stop) => Err(stop),
        }
    }
}
