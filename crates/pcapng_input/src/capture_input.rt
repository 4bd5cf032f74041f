//! Inputs of captures.
//!
//! Two rooms hold what is read ahead and one record, 12 and 24 octets when they are made: these 36 are all that a classic
//! capture needs. For the first block the first room grows to 65,536 octets, and to what a longer one takes once its length is
//! known, at most 327,680; that of a record grows to just the longest so far, at most 262,160. A record that doesn't go
//! straight into the caller's octets is copied out of the block once: its room costs less than a proof of where in the block
//! its octets lie.
//!
//! An input makes at most 2^45 reads over its life, so that the number of a block and its place fit 64 bits whatever its input
//! tells. At a million reads a second these are a year.
ghost use Rattle.std.specs.Prelude.{◌≡◌, ◌<◌, ℕ, Option, None, Some, min, length, option_map, IfOk, IfSome};
ghost use Rattle.std.specs.Io.{ReadsAtMost};
ghost use Rattle.std.specs.Io.KnownBytes.{ReadConsumes};
ghost use Rattle.pcap.specs.Counts.{CountsFaults, GoesOnBy};
ghost use Rattle.pcap.specs.Supply.{Spends, untouched};
ghost use Rattle.pcapng_input.specs.Adapted.{told_text};
ghost use Rattle.pcapng_input.specs.Adapter.{IsAllTold, KeepsFault, left_out_by, met_fault, told, told_fault, told_octets};
ghost use Rattle.pcapng_input.specs.Stops.{FailsFor};

use crate::adapter::Adapter;
use crate::fault::PcapngFault;
use crate::interface::Selection;
use pcap::stream::{DeviceFault, Input};
use std::alloc::{AllocError, Global};

/// An input of a capture: a pcapng one is told as the classic capture of its packets but for outbound ones, which are left out
/// and counted, and any other octet for octet.
///
/// It keeps what it read ahead, in room for 65,536 octets or for the longest block so far, at most 327,680; the octets of one
/// record, in room for the longest so far, at most 262,160; and what the section describes. It reads only where the block in
/// front isn't whole there. A text is pcapng where it begins with the octets 0A 0D 0D 0A. Where the packets of
/// one interface are asked for, only pcapng is taken: any other text has the fault `NoSection` then. At a fault of a pcapng
/// text each read fails. So does one for which memory is refused, and it takes nothing; where that was for a record or an
/// interface, each read behind it fails too.
#[derive(Drop)]
pub struct CaptureInput<'s, R: Input> {
    adapter: Adapter<'s, R>,
    calls: u64,
    failures: u64,
    lacks_memory: bool,
}

impl<'s, R: Input> CaptureInput<'s, R> {
    /// Reserves 36 octets, all that a text needs that isn't pcapng, and reads nothing. `reads` is how many reads of the
    /// input it may make over its life, of which it makes at most 35,184,372,088,832: a read that would need one more
    /// fails.
    pub fn new(
        alloc: Global,
        input: R,
        selection: Selection<'s>,
        reads: u64,
    ) -> Result<CaptureInput<'s, R>, AllocError>
    where
        R: Drop,
        ensures told { IfOk result (λ made. told made.adapter ≡ option_map (told_text selection.entry) (R.remaining input)) }
        ensures supply { IfOk result (λ made. made.adapter.below.supply
            ≡ untouched (R.remaining input) (R.calls input) (R.failures input) (min reads 35184372088832)) }
        ensures fault { IfOk result (λ made. met_fault made.adapter ≡ None) }
    {
        let adapter = Adapter::new(alloc, input, selection, reads)?;
        Ok(CaptureInput {
            adapter,
            calls: 0,
            failures: 0,
            lacks_memory: false,
        })
    }

    /// The first fault of the pcapng text, once it was met.
    pub fn fault(&self) -> Option<PcapngFault>
        ensures met { result ≡ met_fault self.now.adapter }
        ensures exact { IfSome result (λ fault. IfSome (told_fault self.now.adapter) (λ told. told ≡ Some fault)) }
    {
        self.adapter.fault()
    }

    /// How many packets of the pcapng text were left out yet, since they are outbound: of all once a read answered that nothing
    /// comes, or a fault was met.
    pub fn left_out(&self) -> u64
        ensures { result ≡ left_out_by self.now.adapter }
    {
        self.adapter.left_out()
    }

    /// Whether the last read failed since memory was refused.
    pub fn lacks_memory(&self) -> bool
        ensures { result ≡ self.now.lacks_memory }
    {
        self.lacks_memory
    }
}

impl<'s, R: Input> Input for CaptureInput<'s, R> {
    ghost remaining = { λ s. told_octets s.adapter };

    ghost calls = { λ s. s.calls };

    ghost failures = { λ s. s.failures };

    fn read(&mut self, octets: &mut [u8]) -> Result<usize, DeviceFault>
        ensures bound { ReadsAtMost result octets.new }
        ensures taken { ReadConsumes (told_octets self.old.adapter) (told_octets self.new.adapter) result octets.new }
        ensures calls { GoesOnBy 1 self.old.calls self.new.calls }
        ensures failures { CountsFaults self.old.failures self.new.failures result }
        ensures fault { KeepsFault (told_fault self.old.adapter) (told_fault self.new.adapter) }
        ensures all { IfOk result (λ n. n ≡ 0 → 0 < length octets.new
            → IsAllTold (left_out_by self.new.adapter) (told self.new.adapter)) }
        ensures spent { Spends self.old.adapter.below.supply self.new.adapter.below.supply }
        ensures cause { FailsFor self.old.adapter self.new.adapter self.new.lacks_memory result }
    {
        self.calls = self.calls.wrapping_add(1);
        match self.adapter.give(octets) {
            Ok(n) => {
                self.lacks_memory = false;
                Ok(n)
            }
            Err(stop) => {
                self.failures = self.failures.wrapping_add(1);
                self.lacks_memory = stop.is_of_memory();
                Err(DeviceFault)
            }
        }
    }
}
