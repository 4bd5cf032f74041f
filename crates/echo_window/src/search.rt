//! Which of the frames that are kept a record is an echo of.
ghost use Rattle.std.specs.Prelude.{◌≡◌, ◌<◌, Some, if◌then◌else◌, length, slice_index_or, true};
ghost use Rattle.std.specs.List.{position};
ghost use Rattle.echo_window.specs.Echo.{first_met, is_echo_of};
ghost use Rattle.echo_window.specs.Index.{IsAllAt, index_of};
ghost use Rattle.echo_window.specs.Laid.{told};

use crate::record::Record;
use crate::window::Window;

impl Window {
    /// Which frame a record is an echo of: none where all frames with the bucket of its own came in at its place, since those can't
    /// be sent there. Mostly there are none, or the latest tells so.
    #[inline(always)]
    pub(crate) fn search(&self, met: &Record) -> Option<usize>
        ensures { result ≡ position (is_echo_of self.now.within (told met.now)) self.now.came }
    {
        if self.is_alike(met.frame.bucket(), met.place) {
            return None;
        }
        self.search_all(met)
    }

    /// The same, from the latest frame with the bucket to the earliest, up to one that came in at the record's place, as all before
    /// it did.
    #[inline(never)]
    fn search_all(&self, met: &Record) -> Option<usize>
        ensures { result ≡ position (is_echo_of self.now.within (told met.now)) self.now.came }
    {
        let mut found = None;
        let mut end = self.frames.len();
        let mut i = index_of(self.first, self.latest[met.frame.bucket()]);
        while i < end {
            let kept = &self.frames[i];
            if kept.are_all_at(met.place) {
                return found;
            }
            found = if_echo(self.is_echo_at(i, met), i, found);
            end = i;
            let number = kept.before;
            i = index_of(self.first, number);
        }
        found
    }

    /// Whether all frames with a bucket are known to have come in at a place.
    #[inline(always)]
    pub(crate) fn is_alike(&self, bucket: usize, place: u8) -> bool
        requires { bucket < 16384 }
        ensures { result ≡ true → IsAllAt self.now.came bucket place }
    {
        let i = index_of(self.first, self.latest[bucket]);
        i >= self.frames.len() || self.frames[i].are_all_at(place)
    }

    /// Whether a record is an echo of the frame at an index. Most are of the same place, which is seen before their octets are
    /// looked for.
    #[inline]
    fn is_echo_at(&self, i: usize, met: &Record) -> bool
        requires { i < length self.now.came }
        ensures { result ≡ is_echo_of self.now.within (told met.now) (slice_index_or self.now.came i (first_met (told met.now))) }
    {
        let (kept, within) = (&self.frames[i], self.within);
        if !kept.awaits(within, met) {
            return false;
        }
        let begin = kept.at.wrapping_sub(self.passed) as usize;
        kept.is_met_by(self.row.part(begin, kept.length), within, met)
    }
}

/// The index of the frame with a number, where the first that is kept has this one.
#[inline(always)]
fn index_of(first: u64, number: u64) -> usize
    ensures { result ≡ index_of first number }
{
    number.wrapping_sub(first) as usize
}

/// The index, where a record is an echo of the frame at it; else what was found behind it.
#[inline]
fn if_echo(is_echo: bool, i: usize, found: Option<usize>) -> Option<usize>
    ensures { result ≡ (if is_echo then Some i else found) }
{
    if is_echo { Some(i) } else { found }
}
