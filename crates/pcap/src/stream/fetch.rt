//! The global header and the records of a capture, from an input.
ghost use Rattle.std.specs.Prelude.{◌≡◌, ◌≤◌, ◌+◌, ℕ, List, IfOk, IsSome, OnErr, false, length, true};
ghost use Rattle.pcap.specs.Next.{next_of};
ghost use Rattle.pcap.specs.Ahead.{left_of, most_in};
ghost use Rattle.pcap.specs.Source.{IsShortHeader, IsShortRecord, ReadsHeader, ReadsNext, ReadsWhatLacks, is_another, lent};
ghost use Rattle.pcap.specs.State.{IsSound, standing_of};
ghost use Rattle.pcap.specs.Supply.{GivesUp, IsThrifty, Spends, StopsShort};

use crate::stream::ahead::ReadAhead;
use crate::stream::device::DeviceFault;
use crate::stream::fault::SourceFault;
use crate::stream::input::Input;
use crate::text::{HEADER_LENGTH, RECORD_HEADER_LENGTH, Style, open_header, open_record};

/// A record whose octets were taken last.
#[derive(Clone, Copy)]
pub struct Fetched {
    pub moment: u64,
    pub original: u32,
}

/// Where a source stands.
#[derive(Clone, Copy)]
pub enum State {
    New,
    Open(Style, Option<Fetched>),
    Ended { is_cut: bool },
    Failed(SourceFault),
}

/// Reads the global header.
pub fn fetch_header<R: Input>(ahead: &mut ReadAhead<R>) -> Result<State, DeviceFault>
    ensures header { IfOk result (λ state. (octets : List ℕ)
        → ReadsHeader (left_of ahead.old) (left_of ahead.new) (standing_of state octets)) }
    ensures sound { IfOk result (λ state. (octets : List ℕ) → IsSound state octets) }
    ensures most { most_in ahead.new ≤ most_in ahead.old }
    ensures spent { Spends (left_of ahead.old) (left_of ahead.new) }
    ensures thrift { IsThrifty (left_of ahead.old) (left_of ahead.new) }
    ensures below { IsThrifty ahead.old.input ahead.new.input }
    ensures gives_up { OnErr result (GivesUp (left_of ahead.old) (left_of ahead.new)) }
    ensures short { OnErr result (StopsShort IsShortHeader (length ahead.old.ahead) (left_of ahead.old) (left_of ahead.new)) }
{
    ahead.pass(HEADER_LENGTH)?;
    match open_header(ahead.taken()) {
        Ok(style) => Ok(State::Open(style, None)),
        Err(fault) => Ok(State::Failed(SourceFault::from(fault))),
    }
}

/// Reads what comes next. A record's octets are those that were taken last.
pub fn fetch<R: Input>(style: Style, ahead: &mut ReadAhead<R>) -> Result<State, DeviceFault>
    ensures next { IfOk result (λ state. ReadsNext style (left_of ahead.old) (left_of ahead.new) (standing_of state ahead.new.taken)) }
    ensures sound { IfOk result (λ state. IsSound state ahead.new.taken) }
    ensures held { is_another (next_of style ahead.old.ahead) ≡ true → ahead.new.input ≡ ahead.old.input }
    ensures spent { Spends (left_of ahead.old) (left_of ahead.new) }
    ensures thrift { IsThrifty (left_of ahead.old) (left_of ahead.new) }
    ensures below { IsThrifty ahead.old.input ahead.new.input }
    ensures lends { IfOk result (λ state. IsSome (lent (standing_of state ahead.new.taken))
        → 16 + most_in ahead.new ≤ most_in ahead.old) }
    ensures lacks { IfOk result (λ state.
        ReadsWhatLacks ahead.old.ahead (left_of ahead.old) (left_of ahead.new) (standing_of state ahead.new.taken)) }
    ensures gives_up { OnErr result (GivesUp (left_of ahead.old) (left_of ahead.new)) }
    ensures short { OnErr result (StopsShort (IsShortRecord style) (length ahead.old.ahead) (left_of ahead.old) (left_of ahead.new)) }
    ensures lacked { OnErr result (is_another (next_of style ahead.old.ahead) ≡ false) }
{
    let got = ahead.pass(RECORD_HEADER_LENGTH)?;
    if got < RECORD_HEADER_LENGTH {
        return Ok(State::Ended { is_cut: got > 0 });
    }
    let header = match open_record(style, ahead.taken()) {
        Ok(header) => header,
        Err(fault) => return Ok(State::Failed(SourceFault::from(fault))),
    };
    let captured = header.captured as usize;
    let got = ahead.pass(captured)?;
    if got < captured {
        return Ok(State::Ended { is_cut: true });
    }
    let fetched = Fetched {
        moment: header.moment(style.precision),
        original: header.original,
    };
    Ok(State::Open(style, Some(fetched)))
}
