//! The records of a capture, one after another.
ghost use Rattle.std.specs.Prelude.{◌≡◌, ◌≢◌, ◌≤◌, ◌+◌, ⊤, ℕ, List, [], IfOk, IfSome, IsSome, false, true};
ghost use Rattle.std.specs.Io.KnownBytes.{prepend_known};
ghost use Rattle.pcap.specs.Next.{next_of};
ghost use Rattle.pcap.specs.Record.{IsWithinLimits};
ghost use Rattle.pcap.specs.Source.{FillsToTheBound, IsFilled, IsOpened, MatchRead, New, OpensToTheBound, ReadsWhatLacks};
ghost use Rattle.pcap.specs.Source.{answer, below, ends_cut, holds_next, is_another, lent, most_left, style_at};
ghost use Rattle.pcap.specs.State.{standing_of};
ghost use Rattle.pcap.specs.Supply.{IsThrifty, Spends, untouched};

use crate::stream::ahead::ReadAhead;
use crate::stream::fault::SourceFault;
use crate::stream::fetch::{State, fetch, fetch_header};
use crate::stream::input::Input;
use crate::text::{RECORD_HEADER_LENGTH, Record, Style, open_record};
use std::alloc::{AllocError, Global};
use std::marker::Model;

/// The records of a capture, one at a time, out of the room that they are read into.
///
/// `open` comes first, and then `fill` fetches each record, which `head` lends until the next `fill`. All that it does
/// takes at most as many reads of its input as it was given. Contracts see where it stands, its input, and what was read
/// ahead.
#[derive(Drop)]
pub struct Source<R: Input> {
    ahead: ReadAhead<R>,
    state: State,
}

impl<R: Input> Model for Source<R> {
    ghost use Rattle.pcap.specs.Source.{Stream};

    ghost Value = { Stream };

    ghost use Rattle.pcap.specs.Ahead.{left_of};
    ghost use Rattle.pcap.specs.State.{IsSound, standing_of};

    ghost view = { λ s. record {
      standing = standing_of s.state s.ahead.taken;
      supply = left_of s.ahead;
      ahead = s.ahead.ahead;
    } };

    ghost invariant = { λ s. IsSound s.state s.ahead.taken };
}

impl<R: Input> Source<R> {
    /// Reserves room for the octets of one record, 262,144, and reads nothing. `reads` is how many reads of the input it
    /// may make over its life. It reads up to 65,536 octets at once.
    pub fn new(alloc: Global, input: R, reads: u64) -> Result<Source<R>, AllocError>
    where
        R: Drop,
        ensures { IfOk result (λ source. source ≡ record {
          standing = New;
          supply = untouched (R.remaining input) (R.calls input) (R.failures input) reads;
          ahead = [];
        }) }
    {
        let ahead = ReadAhead::new(alloc, input, reads)?;
        Ok(Source {
            ahead,
            state: State::New,
        })
    }

    /// Reads the global header. It answers `Read` only where a read failed, or one more was needed than are left.
    /// `NotPcap`: there are fewer than 24 octets, another magic number or another version than 2.4. `BadLink`: the link
    /// type isn't 1, Ethernet.
    pub fn open(&mut self) -> Result<(), SourceFault>
        requires { self.old.standing ≡ New }
        ensures opened { IsOpened self.old self.new result }
        ensures bound { OpensToTheBound self.old self.new result }
        ensures answer { result ≡ answer self.new.standing }
        ensures begun { self.new.standing ≢ New }
        ensures spent { Spends self.old.supply self.new.supply }
        ensures thrift { IsThrifty self.old.supply self.new.supply }
        ensures below { IsThrifty (below self.old) (below self.new) }
        ensures most { most_left self.new ≤ most_left self.old }
    {
        match fetch_header(&mut self.ahead) {
            Ok(state) => {
                self.state = state;
                answer_of(state)
            }
            Err(_) => {
                self.state = State::Failed(SourceFault::Read);
                Err(SourceFault::Read)
            }
        }
    }

    /// Fetches the next record. At the end it answers `Ok` and there is no record; after a fault it answers that fault. It
    /// answers `Read` only where the record wasn't read ahead whole.
    pub fn fill(&mut self) -> Result<(), SourceFault>
        requires { self.old.standing ≢ New }
        ensures filled { IsFilled self.old self.new result }
        ensures bound { FillsToTheBound self.old self.new result }
        ensures answer { result ≡ answer self.new.standing }
        ensures begun { self.new.standing ≢ New }
        ensures spent { Spends self.old.supply self.new.supply }
        ensures thrift { IsThrifty self.old.supply self.new.supply }
        ensures below { IsThrifty (below self.old) (below self.new) }
        ensures lacks { ReadsWhatLacks self.old.ahead self.old.supply self.new.supply self.new.standing }
        ensures lends { IsSome (lent self.new.standing) → 16 + most_left self.new ≤ most_left self.old }
        ensures held { holds_next self.old ≡ true → self.new.supply.calls ≡ self.old.supply.calls }
        ensures lacked { MatchRead result (holds_next self.old ≡ false) ⊤ }
    {
        let style = match self.state {
            State::Open(style, _) => style,
            State::New => unreachable!(),
            State::Ended { .. } => return Ok(()),
            State::Failed(fault) => return Err(fault),
        };
        match fetch(style, &mut self.ahead) {
            Ok(state) => {
                self.state = state;
                answer_of(state)
            }
            Err(_) => {
                self.state = State::Failed(SourceFault::Read);
                Err(SourceFault::Read)
            }
        }
    }

    /// The record that was fetched last: none before the first `fill`, at the end, and after a fault.
    pub fn head(&self) -> Option<Record<'_>>
        ensures record { result ≡ lent self.now.standing }
        ensures limits { IfSome result IsWithinLimits }
    {
        match self.state {
            State::Open(_, Some(fetched)) => Some(Record {
                moment: fetched.moment,
                original: fetched.original,
                octets: self.ahead.taken(),
            }),
            _ => None,
        }
    }

    /// Whether the next record was read ahead whole: then the next `fill` fetches it and makes no read. Where that would answer
    /// a fault, it wasn't.
    pub fn holds_next(&self) -> bool
        ensures { result ≡ holds_next self.now }
    {
        match self.state {
            State::Open(style, _) => is_another(style, self.ahead.ahead()),
            _ => false,
        }
    }

    /// How the capture writes its numbers: none before `open`, at the end, and after a fault.
    pub fn style(&self) -> Option<Style>
        ensures { result ≡ style_at self.now.standing }
    {
        match self.state {
            State::Open(style, _) => Some(style),
            _ => None,
        }
    }

    /// The input, as the reads so far left it: what was read ahead is taken from it.
    pub fn input(&self) -> &R
        ensures rest { self.now.supply.rest ≡ prepend_known self.now.ahead (R.remaining result.now) }
        ensures calls { R.calls result.now ≡ self.now.supply.calls }
        ensures failures { R.failures result.now ≡ self.now.supply.failures }
    {
        self.ahead.input()
    }

    /// Whether the end came with a rest before it that is no whole record, which is left out.
    pub fn is_cut(&self) -> bool
        ensures { result ≡ ends_cut self.now.standing }
    {
        match self.state {
            State::Ended { is_cut } => is_cut,
            _ => false,
        }
    }
}

/// The fault that a source stands at, if any.
fn answer_of(state: State) -> Result<(), SourceFault>
    ensures { (octets : List ℕ) → result ≡ answer (standing_of state octets) }
{
    match state {
        State::Failed(fault) => Err(fault),
        _ => Ok(()),
    }
}

/// Whether a whole record without a fault stands in front of a text.
fn is_another(style: Style, text: &[u8]) -> bool
    ensures { result ≡ is_another (next_of style text.now) }
{
    if text.len() < RECORD_HEADER_LENGTH {
        return false;
    }
    match open_record(style, text) {
        Ok(header) => header.captured as usize <= text.len() - RECORD_HEADER_LENGTH,
        Err(_) => false,
    }
}
