//! Octets of an input, as far as the end of a line.
ghost use Rattle.std.specs.Prelude.{◌≡◌, ◌≢◌, ◌≤◌, ◌<◌, ◌+◌, ◌-◌, ⊤, ℕ, List, Option, length, take, drop, IfOk, OnErr, Some, IfSome};
ghost use Rattle.std.specs.Prelude.{MatchOption, false, vec_capacity};
ghost use Rattle.std.specs.Io.KnownBytes.{Consumes, IsAtEnd, prepend_known};
ghost use Rattle.pcap.specs.Counts.{CountsFaults};
ghost use Rattle.line_stream.specs.Filled.{IsFilled, IsLent, IsNext};
ghost use Rattle.line_stream.specs.Lines.{has_line, longest_line};

use crate::fault::LinesFault;
use crate::find::end_of_line;
use crate::lines::LONGEST_LINE;
use pcap::stream::{DeviceFault, Input, read_behind};

/// How long a room is made first.
const FIRST_ROOM: usize = 4_096;

/// Where the first line in a room ends, and where what was read ends.
#[derive(Clone, Copy)]
pub(crate) struct Ends {
    pub line: usize,
    pub read: usize,
}

/// Where a line that is lent begins and ends, and where what was read behind it ends.
#[derive(Clone, Copy)]
pub(crate) struct Lent {
    pub begin: usize,
    pub end: usize,
    pub read: usize,
}

/// Moves what was read behind a line to the front, and says how much it is.
fn move_front(room: &mut [u8], ends: Ends) -> usize
    requires line { ends.line ≤ ends.read }
    requires read { ends.read ≤ length room.old }
    ensures count { result ≡ ends.read - ends.line }
    ensures moved { take result room.new ≡ drop ends.line (take ends.read room.old) }
{
    room.copy_within(ends.line..ends.read, 0);
    ends.read - ends.line
}

/// Makes a room twice as long, within what is reserved for it.
#[cold]
#[inline(never)]
fn lengthen(room: &mut Vec<u8>)
    requires short { length room.old.items < longest_line }
    requires reserved { longest_line ≤ vec_capacity room.old }
    ensures longer { length room.old.items < length room.new.items }
    ensures size { length room.new.items ≤ longest_line }
    ensures reserved { longest_line ≤ vec_capacity room.new }
    ensures front { take (length room.old.items) room.new.items ≡ room.old.items }
{
    let end = (2 * room.len()).max(FIRST_ROOM).min(LONGEST_LINE);
    let Ok(()) = room.resize(end, 0) else {
        unreachable!()
    };
}

/// One read behind the first `filled` octets of a room, which is lengthened where it's full.
fn read_more<R: Input>(
    input: &mut R,
    room: &mut Vec<u8>,
    filled: usize,
) -> Result<usize, DeviceFault>
    requires filled { filled ≤ length room.old.items }
    requires short { filled < longest_line }
    requires size { length room.old.items ≤ longest_line }
    requires reserved { longest_line ≤ vec_capacity room.old }
    ensures size { length room.new.items ≤ longest_line }
    ensures kept { length room.old.items ≤ length room.new.items }
    ensures reserved { longest_line ≤ vec_capacity room.new }
    ensures front { take filled room.new.items ≡ take filled room.old.items }
    ensures fits { IfOk result (λ n. filled + n ≤ length room.new.items) }
    ensures taken { IfOk result (λ n. Consumes (R.remaining input.old) (R.remaining input.new) (take n (drop filled room.new.items))) }
    ensures end { IfOk result (λ n. n ≡ 0 → IsAtEnd (R.remaining input.new)) }
    ensures failures { CountsFaults (R.failures input.old) (R.failures input.new) result }
{
    if filled == room.len() {
        lengthen(room);
    }
    read_behind(input, room.as_mut_slice(), filled)
}

/// Reads behind the first `filled` octets of a room until they have a line feed or the input ends.
fn fill_line<R: Input>(input: &mut R, room: &mut Vec<u8>, filled: usize) -> Result<Ends, LinesFault>
    requires filled { filled ≤ length room.old.items }
    requires size { length room.old.items ≤ longest_line }
    requires reserved { longest_line ≤ vec_capacity room.old }
    ensures line { IfOk result (λ ends. ends.line ≤ ends.read) }
    ensures read { IfOk result (λ ends. ends.read ≤ length room.new.items) }
    ensures size { length room.new.items ≤ longest_line }
    ensures kept { length room.old.items ≤ length room.new.items }
    ensures reserved { longest_line ≤ vec_capacity room.new }
    ensures filled { IsFilled (prepend_known (take filled room.old.items) (R.remaining input.old))
        (R.failures input.old) (R.remaining input.new) (R.failures input.new) room.new.items result }
{
    let mut seen = 0;
    let mut read = filled;
    while read < LONGEST_LINE {
        if let Some(line) = end_of_line(&room[..read], seen) {
            return Ok(Ends { line, read });
        }
        let Ok(more) = read_more(input, room, read) else {
            return Err(LinesFault::Read);
        };
        if more == 0 {
            return Ok(Ends { line: read, read });
        }
        seen = read;
        read += more;
    }
    match end_of_line(room, seen) {
        Some(line) => Ok(Ends { line, read }),
        None => Err(LinesFault::TooLong),
    }
}

/// The next line where it lies, if all of it was read.
fn line_behind(room: &[u8], lent: Lent) -> Option<Lent>
    requires line { lent.end ≤ lent.read }
    requires read { lent.read ≤ length room.now }
    ensures size { IfSome result (λ found. (found.begin ≤ found.end) × (found.end ≤ found.read) × (found.read ≤ length room.now)) }
    ensures found { IfSome result (λ found. (left : Option (List ℕ))
        → IsNext (prepend_known (drop lent.end (take lent.read room.now)) left) left room.now found) }
    ensures none { MatchOption result (has_line (drop lent.end (take lent.read room.now)) ≡ false) (λ _. ⊤) }
{
    let length = end_of_line(&room[lent.end..lent.read], 0)?;
    Some(Lent {
        begin: lent.end,
        end: lent.end + length,
        read: lent.read,
    })
}

/// Reads the next line behind that which is lent. Where all of it was read it stays where it lies; else what was read of it
/// moves to the front of the room, and is read on until it has a line feed or the input ends.
pub(crate) fn next_line<R: Input>(
    input: &mut R,
    room: &mut Vec<u8>,
    lent: Lent,
) -> Result<Lent, LinesFault>
    requires line { lent.end ≤ lent.read }
    requires read { lent.read ≤ length room.old.items }
    requires size { length room.old.items ≤ longest_line }
    requires reserved { longest_line ≤ vec_capacity room.old }
    ensures begin { IfOk result (λ found. found.begin ≤ found.end) }
    ensures line { IfOk result (λ found. found.end ≤ found.read) }
    ensures read { IfOk result (λ found. found.read ≤ length room.new.items) }
    ensures size { length room.new.items ≤ longest_line }
    ensures kept { length room.old.items ≤ length room.new.items }
    ensures reserved { longest_line ≤ vec_capacity room.new }
    ensures lent { IsLent (prepend_known (drop lent.end (take lent.read room.old.items)) (R.remaining input.old))
        (R.failures input.old) (R.remaining input.new) (R.failures input.new) room.new.items result }
    ensures lacked { OnErr result (has_line (drop lent.end (take lent.read room.old.items)) ≡ false) }
{
    if let Some(found) = line_behind(room, lent) {
        return Ok(found);
    }
    let ends = Ends {
        line: lent.end,
        read: lent.read,
    };
    let filled = move_front(room.as_mut_slice(), ends);
    match fill_line(input, room, filled) {
        Ok(ends) => Ok(Lent {
            begin: 0,
            end: ends.line,
            read: ends.read,
        }),
        Err(fault) => Err(fault),
    }
}
