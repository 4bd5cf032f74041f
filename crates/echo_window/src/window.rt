//! The latest frames that came in.
ghost use Rattle.std.specs.Prelude.{◌≡◌, ◌≤◌, ◌<◌, ◌+◌, ◌-◌, ◌&&◌, [], ◌∷◌, ◌++◌, IfOk, drop, if◌then◌else◌, length, nat_eq, nat_le};
ghost use Rattle.std.specs.Prelude.{slice_index_or, true};
ghost use Rattle.echo_window.specs.Echo.{Record as ARecord, age_at, behind_entered, behind_met, crowded_by, echo_of, first_met, fits};
ghost use Rattle.echo_window.specs.Echo.{is_met_everywhere, met_again, new_window, newest, origin_of, recent, with_ages, with_met};
ghost use Rattle.echo_window.specs.Laid.{begins_past, told};

use crate::bucket::BUCKETS;
use crate::forgotten::Forgotten;
use crate::kept::Kept;
use crate::origin::Origin;
use crate::record::Record;
use octet_row::Row;
use std::alloc::{AllocError, Global};
use std::collections::VecDeque;
use std::marker::Model;

/// How many frames a window keeps at most.
const MOST_FRAMES: usize = 4_096;

/// How many octets they have at most.
pub(crate) const MOST_OCTETS: usize = 4_194_304;

/// For how many there is room: as many may be forgotten before those that are kept move to the front.
const ROOM: usize = 2 * MOST_OCTETS;

/// The latest frames that came in, at most 4,096 of them and 4 MiB of octets, the places where each may still be met again, and
/// what was forgotten for want of room. Only [`Window::new`] takes memory.
#[derive(Drop)]
pub struct Window {
    /// How many nanoseconds later an echo may be.
    pub(crate) within: u64,
    /// The earliest first. Each has a number, from 1 on.
    pub(crate) frames: VecDeque<Kept>,
    /// Their octets, in the same order.
    pub(crate) row: Row<MOST_OCTETS>,
    /// The number of the first, or of the next one, and how many octets came before its own.
    pub(crate) first: u64,
    pub(crate) passed: u64,
    /// By a bucket, the number of the latest frame that had it; 0 where none had it yet. Where that frame went, none that is kept
    /// has the bucket: so it does no harm that its number may be another's, once numbers began again behind the greatest.
    pub(crate) latest: Vec<u64>,
    forgotten: Forgotten,
}

impl Model for Window {
    ghost use Rattle.echo_window.specs.Echo.{Window};
    ghost use Rattle.echo_window.specs.Index.{IsKept};
    ghost use Rattle.echo_window.specs.Laid.{laid};
    ghost use Rattle.std.specs.VecDeque.{deque_capacity};

    ghost Value = { Window };

    ghost view = { λ w. record { within = w.within; came = laid w.frames.items w.row; forgotten = w.forgotten } };

    ghost invariant = { λ w. IsKept w.frames.items w.row (deque_capacity w.frames) w.first w.passed w.latest.items };
}

impl Window {
    /// A window that knows no frame yet, for echoes at most so many nanoseconds later. It takes the memory for all that it may
    /// keep, and `AllocError` says that there was none.
    pub fn new(alloc: Global, within: u64) -> Result<Window, AllocError>
        ensures { IfOk result (λ window. window ≡ new_window within) }
    {
        Ok(Window {
            within,
            frames: VecDeque::with_capacity(alloc, MOST_FRAMES)?,
            row: Row::new(alloc, ROOM, MOST_OCTETS)?,
            first: 1,
            passed: 0,
            latest: vec![in alloc; 0; BUCKETS]?,
            forgotten: Forgotten::nothing(),
        })
    }

    /// Meets the next record, and forgets what came in too early for an echo at its moment. Where it is an echo: the record that
    /// brought its frame.
    #[inline(always)]
    pub fn meet(&mut self, met: &Record) -> Option<Origin>
        ensures answer { result ≡ echo_of self.old.within self.old.came (told met.now) }
        ensures behind { self.new ≡ behind_met self.old (told met.now) }
    {
        self.forget_past(met.moment);
        self.meet_recent(met)
    }

    /// Keeps the next record as a frame that came in, whatever it may be an echo of, and forgets as [`Window::meet`] does.
    #[inline(always)]
    pub fn enter(&mut self, met: &Record)
        ensures { self.new ≡ behind_entered self.old (told met.now) }
    {
        self.forget_past(met.moment);
        self.keep(met);
    }

    /// How many nanoseconds later an echo may be.
    pub fn within(&self) -> u64
        ensures { result ≡ self.now.within }
    {
        self.within
    }

    /// What it forgot for want of room, although an echo of it might still have come.
    pub fn forgotten(&self) -> Forgotten
        ensures { result ≡ self.now.forgotten }
    {
        self.forgotten
    }

    /// Meets the next record, where all frames that it may be an echo of are recent. Where it is an echo: the record that brought
    /// its frame.
    #[inline]
    fn meet_recent(&mut self, met: &Record) -> Option<Origin>
        ensures answer { result ≡ echo_of self.old.within self.old.came (told met.now) }
        ensures behind { self.new ≡ record self.old { came = with_met self.old.within self.old.came (told met.now) } }
    {
        match self.search(met) {
            Some(i) => Some(self.mark(i, met)),
            None => None,
        }
    }

    /// Forgets the frames in front that came in too early for an echo at a moment.
    #[inline(always)]
    fn forget_past(&mut self, moment: u64)
        ensures { self.new ≡ record self.old { came = recent self.old.within moment self.old.came } }
    {
        while self.begins_past(moment) {
            self.forget_first();
        }
    }

    /// Whether the earliest frame came in too early for an echo at a moment.
    #[inline]
    fn begins_past(&self, moment: u64) -> bool
        ensures { result ≡ begins_past self.now.within moment self.now.came }
    {
        !self.frames.is_empty() && self.frames[0].is_past(self.within, moment)
    }

    /// Notes that a frame was met again at the place of a record. Which record brought it is told.
    fn mark(&mut self, i: usize, met: &Record) -> Origin
        requires there { i < length self.old.came }
        ensures origin { result ≡ origin_of (slice_index_or self.old.came i (first_met (told met.now))) }
        ensures came { self.new ≡ record self.old { came = met_again (told met.now) self.old.came i } }
    {
        let kept = &mut self.frames[i];
        kept.awaited.remove(met.place);
        Origin {
            place: kept.place,
            number: kept.number,
            moment: kept.moment,
        }
    }

    /// Keeps the frame of a record as the latest, and as many of the others as fit. The rest are counted, and so is this one where
    /// it doesn't fit alone.
    #[inline(always)]
    fn keep(&mut self, met: &Record)
        ensures { self.new ≡ record self.old {
          came = newest (self.old.came ++ first_met (told met.now) ∷ []);
          forgotten = with_ages self.old.forgotten (crowded_by self.old.came (told met.now));
        } }
    {
        while !self.has_room(met) {
            if self.is_empty() {
                self.count_lost(0, met.awaited.is_empty());
                return;
            }
            self.lose_first(met);
        }
        self.put(met);
    }

    /// Forgets the earliest frame, and counts it at its age when a record came, where it may be met again.
    fn lose_first(&mut self, met: &Record)
        requires { 0 < length self.old.came }
        ensures { self.new ≡ record self.old {
          came = drop 1 self.old.came;
          forgotten = with_ages self.old.forgotten (age_at met.now.moment (slice_index_or self.old.came 0 (first_met (told met.now))));
        } }
    {
        self.count_lost(self.first_age(met), self.is_first_met());
        self.forget_first();
    }

    /// Whether it knows no frame.
    #[inline]
    fn is_empty(&self) -> bool
        ensures { result ≡ nat_eq (length self.now.came) 0 }
    {
        self.frames.is_empty()
    }

    /// Whether the frame of a record fits behind those that are kept.
    #[inline]
    fn has_room(&self, met: &Record) -> bool
        ensures { result ≡ fits (self.now.came ++ first_met (told met.now) ∷ []) }
    {
        fit(
            self.frames.len() + 1,
            self.row.count(),
            met.frame.octet_count(),
        )
    }

    /// The age of the earliest frame when a record came.
    fn first_age(&self, met: &Record) -> u64
        requires { 0 < length self.now.came }
        ensures { result ≡ met.now.moment - (slice_index_or self.now.came 0 (first_met (told met.now))).moment }
    {
        met.moment.saturating_sub(self.frames[0].moment)
    }

    /// Whether the earliest frame was met again wherever it might be.
    fn is_first_met(&self) -> bool
        requires { 0 < length self.now.came }
        ensures { (r : ARecord) → result ≡ is_met_everywhere (slice_index_or self.now.came 0 (first_met r)) }
    {
        self.frames[0].awaited.is_empty()
    }

    /// Counts one more frame for which there is no room, at this age, unless it was met again wherever it might be.
    fn count_lost(&mut self, age: u64, is_met_everywhere: bool)
        ensures { self.new ≡ record self.old {
          forgotten = with_ages self.old.forgotten (if is_met_everywhere then [] else age ∷ []);
        } }
    {
        self.forgotten.add(age, is_met_everywhere);
    }

    /// Forgets the earliest frame.
    #[inline]
    fn forget_first(&mut self)
        requires { 0 < length self.old.came }
        ensures { self.new ≡ record self.old { came = drop 1 self.old.came } }
    {
        if let Some(kept) = self.frames.pop_front() {
            self.row.forget(kept.length);
            self.first = self.first.wrapping_add(1);
            self.passed = self.passed.wrapping_add(kept.length as u64);
        }
    }

    /// Keeps the frame of a record, for which there is room, as the latest.
    #[inline(always)]
    fn put(&mut self, met: &Record)
        requires { fits (self.old.came ++ first_met (told met.now) ∷ []) ≡ true }
        ensures { self.new ≡ record self.old { came = self.old.came ++ first_met (told met.now) ∷ [] } }
    {
        let bucket = met.frame.bucket();
        let kept = Kept {
            place: met.place,
            number: met.number,
            moment: met.moment,
            at: self.passed.wrapping_add(self.row.count() as u64),
            length: met.frame.octet_count(),
            alike: self.is_alike(bucket, met.place),
            before: self.latest[bucket],
            awaited: met.awaited.copied(),
        };
        self.latest[bucket] = self.first.wrapping_add(self.frames.len() as u64);
        met.frame.put_behind(&mut self.row);
        self.frames.push_back_reserved(kept);
    }
}

/// Whether so many frames fit, with so many octets and as many more.
#[inline]
fn fit(count: usize, octets: usize, more: usize) -> bool
    requires { octets ≤ 4194304 }
    ensures { result ≡ (nat_le count 4096 && nat_le (octets + more) 4194304) }
{
    count <= MOST_FRAMES && more <= MOST_OCTETS - octets
}
