//! Lines, one after another.
ghost use Rattle.std.specs.Prelude.{◌≡◌, ◌≤◌, IfOk, OnErr, Some, [], false, length};
ghost use Rattle.line_stream.specs.Lines.{IsFetched, holds_line, longest_line};

use crate::fault::LinesFault;
use crate::fill::{Lent, next_line};
use crate::find::has_line;
use pcap::stream::Input;
use std::alloc::{AllocError, Global};
use std::marker::Model;

/// The octets of a line at most.
pub const LONGEST_LINE: usize = 131_072;

/// The lines of an input, one at a time, in room for one of 131,072 octets: it is reserved at once, and used as far as lines
/// ask for it.
///
/// `fetch` reads the next line, which `line` lends until the next `fetch`. Contracts see the line that is lent, what was read
/// ahead of those behind it, what stands behind it, and how often the input failed.
#[derive(Drop)]
pub struct Lines<R: Input> {
    input: R,
    /// Lines that were lent before, the line, and behind it what was read of the next ones. It is as long as a line asked for it
    /// yet, within what is reserved.
    room: Vec<u8>,
    /// Where the line begins and ends, and where what was read ends.
    lent: Lent,
}

impl<R: Input> Model for Lines<R> {
    ghost use Rattle.std.specs.Prelude.{take, drop, vec_capacity};
    ghost use Rattle.std.specs.Io.KnownBytes.{prepend_known};
    ghost use Rattle.line_stream.specs.Filled.{LiesIn};
    ghost use Rattle.line_stream.specs.Lines.{Reader};

    ghost Value = { Reader };

    ghost view = { λ s. record {
      line = drop s.lent.begin (take s.lent.end s.room.items);
      ahead = drop s.lent.end (take s.lent.read s.room.items);
      rest = prepend_known (drop s.lent.end (take s.lent.read s.room.items)) (R.remaining s.input);
      failures = R.failures s.input;
    } };

    ghost invariant = { λ s. LiesIn s.room.items (vec_capacity s.room) s.lent };
}

impl<R: Input> Lines<R> {
    /// Reserves room for a line, 131,072 octets, and reads nothing. No line is lent yet.
    pub fn new(alloc: Global, input: R) -> Result<Lines<R>, AllocError>
    where
        R: Drop,
        ensures { IfOk result (λ lines. lines ≡ record { line = []; ahead = []; rest = R.remaining input; failures = R.failures input }) }
    {
        let room = Vec::with_capacity(alloc, LONGEST_LINE)?;
        Ok(Lines {
            input,
            room,
            lent: Lent {
                begin: 0,
                end: 0,
                read: 0,
            },
        })
    }

    /// Reads the next line: up to and with its line feed, or what is left of the input. At the end it is empty.
    ///
    /// `TooLong`: the next 131,072 octets have no line feed. `Read`: a read failed. After a fault what is lent, and what comes
    /// then, isn't told. A line that was read ahead whole takes no read, and no fault comes then.
    pub fn fetch(&mut self) -> Result<(), LinesFault>
        ensures fetched { IsFetched self.old self.new result }
        ensures lacked { OnErr result (holds_line self.old ≡ false) }
    {
        match next_line(&mut self.input, &mut self.room, self.lent) {
            Ok(lent) => {
                self.lent = lent;
                Ok(())
            }
            Err(fault) => Err(fault),
        }
    }

    /// Whether the next line was read ahead whole: then the next `fetch` lends it and makes no read.
    pub fn holds_next(&self) -> bool
        ensures { result ≡ holds_line self.now }
    {
        has_line(&self.room[self.lent.end..self.lent.read])
    }

    /// The line that was fetched last: empty before the first `fetch` and at the end.
    pub fn line(&self) -> &[u8]
        ensures line { result.now ≡ self.now.line }
        ensures short { length self.now.line ≤ longest_line }
    {
        &self.room[self.lent.begin..self.lent.end]
    }
}
