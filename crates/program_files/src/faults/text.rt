//! A whole text from an input.
ghost use Rattle.std.specs.Prelude.{◌≡◌, IfOk, IfSome, OnOk};
ghost use Rattle.std.specs.Io.KnownBytes.{IsAtEnd};
ghost use Rattle.program_files.specs.Text.{GivesUp, GoesOnByAtMost, MatchRead};

use pcap::stream::Input;
use std::alloc::Global;
use thiserror::Error;

/// Why there is no text.
#[derive(Clone, Copy, Debug, PartialEq, Eq, Error)]
pub enum TextFault {
    /// A read failed, or the reads that were allowed didn't reach the end.
    #[error("read")]
    Read,
    /// Memory was refused.
    #[error("memory")]
    OutOfMemory,
}

/// The octets that one read may take at most.
const CHUNK: usize = 4096;

/// The rest of an input, in at most so many reads.
///
/// `Read` is answered only where a read failed, or where `reads` of them, each of which took something, didn't reach the
/// end. The last read finds the end, so a text takes one read more than those that bring it. `OutOfMemory` comes only
/// where memory was refused.
pub fn read_text<R: Input>(alloc: Global, input: &mut R, reads: u64) -> Result<Vec<u8>, TextFault>
    ensures whole { IfOk result (λ text. IfSome (R.remaining input.old) (λ rest. text.items ≡ rest)) }
    ensures end { OnOk result (IsAtEnd (R.remaining input.new)) }
    ensures bound { GoesOnByAtMost reads (R.calls input.old) (R.calls input.new) }
    ensures fault { MatchRead result
        (GivesUp reads (R.remaining input.old) (R.calls input.old) (R.calls input.new) (R.failures input.old) (R.failures input.new))
        (R.failures input.new ≡ R.failures input.old) }
{
    let mut text = Vec::new(alloc);
    let mut chunk = [0; CHUNK];
    for _made in 0..reads {
        let Ok(taken) = input.read(&mut chunk) else {
            return Err(TextFault::Read);
        };
        if taken == 0 {
            return Ok(text);
        }
        if text.extend_from_slice(&chunk[..taken]).is_err() {
            return Err(TextFault::OutOfMemory);
        }
    }
    Err(TextFault::Read)
}
