//! Sets of segments.
ghost use Rattle.std.specs.Prelude.{◌≡◌, ◌==◌, length, replicate, true};
ghost use Rattle.std.specs.List.{list_any, slice_split};
ghost use Rattle.segment_set.specs.Segments.{All, Only, holds};
ghost use Rattle.segment_set.specs.Lists.{AreVids, Leaves, item_in, meaning, nothing, told, with_once, with_text, with_texts};

use crate::fault::ListFault;
use crate::item::{Item, cut, item_in};
use std::marker::Model;
use wire::ether::Vid;

/// How many VIDs 12 bits have.
const VIDS: usize = 4096;

/// Some segments by their VIDs, and maybe what comes to none.
#[derive(Clone, Copy, Debug)]
struct Picked {
    /// Whether the segment of each VID, from 0 on, is asked for.
    vids: [bool; VIDS],
    /// Whether what comes to no segment is.
    none: bool,
}

/// Which segments are asked for: all, with what comes to none; or some, and maybe what comes to none.
#[derive(Debug, Drop)]
pub struct SegmentSet {
    /// None: all.
    picked: Option<Picked>,
}

impl Model for SegmentSet {
    ghost use Rattle.segment_set.specs.Segments.{Segments, segments_of, segments_code};

    ghost Value = { Segments };

    ghost coded = { segments_code };

    ghost view = { λ s. segments_of s.picked };
}

impl SegmentSet {
    /// All segments, and what comes to none.
    pub fn all() -> SegmentSet
        ensures { result ≡ All }
    {
        SegmentSet { picked: None }
    }

    /// The segments of a list: `all`, or items with commas between them, each a VID of 1 to 4094, a range of them as
    /// `20-29`, or `none` for what comes to no segment. The first fault is told, and `Doubled` where an item asks for what
    /// an item before it does.
    pub fn parse(list: &str) -> Result<SegmentSet, ListFault>
        ensures { result ≡ meaning list.now }
    {
        if list == "all" {
            return Ok(SegmentSet::all());
        }
        let picked = Picked::of_items(list)?;
        Ok(SegmentSet {
            picked: Some(picked),
        })
    }

    /// Whether a segment is asked for; None: whether what comes to no segment is.
    #[inline]
    pub fn has(&self, segment: Option<Vid>) -> bool
        ensures { result ≡ holds self.now segment }
    {
        match &self.picked {
            None => true,
            Some(picked) => picked.has(segment),
        }
    }
}

impl Picked {
    /// What the items of a list ask for.
    fn of_items(list: &str) -> Result<Picked, ListFault>
        ensures { told result ≡ with_texts nothing (slice_split (λ c. c == 44) list.now) }
    {
        let mut picked = Picked {
            vids: [false; VIDS],
            none: false,
        };
        let mut rest = list;
        while let Some((text, behind)) = cut(rest, ',') {
            if let Err(fault) = picked.add_text(text) {
                return Err(fault);
            }
            rest = behind;
        }
        match picked.add_text(rest) {
            Ok(()) => Ok(picked),
            Err(fault) => Err(fault),
        }
    }

    /// Whether a segment is picked; None: whether what comes to no segment is.
    fn has(&self, segment: Option<Vid>) -> bool
        ensures { result ≡ holds (Only self.now.vids self.now.none) segment }
    {
        match segment {
            None => self.none,
            Some(vid) => self.vids[usize::from(vid.get())],
        }
    }

    /// Picks what the item of a text asks for.
    fn add_text(&mut self, text: &str) -> Result<(), ListFault>
        ensures { Leaves (Only self.new.vids self.new.none) result (with_text (Only self.old.vids self.old.none) (item_in text.now)) }
    {
        match item_in(text) {
            Ok(item) => self.add(item),
            Err(fault) => Err(fault),
        }
    }

    /// Picks what an item asks for, or refuses it as `Doubled` where some of it was picked.
    fn add(&mut self, item: Item) -> Result<(), ListFault>
        requires { AreVids item }
        ensures { Leaves (Only self.new.vids self.new.none) result (with_once (Only self.old.vids self.old.none) item) }
    {
        match item {
            Item::Vids(first, last) => {
                let vids = &mut self.vids[usize::from(first)..usize::from(last) + 1];
                if has_any(vids) {
                    return Err(ListFault::Doubled);
                }
                pick_all(vids);
            }
            Item::Nowhere => {
                if self.none {
                    return Err(ListFault::Doubled);
                }
                self.none = true;
            }
        }
        Ok(())
    }
}

/// Whether one is picked.
fn has_any(vids: &[bool]) -> bool
    ensures { result ≡ list_any (λ asked. asked) vids.now }
{
    vids.iter().any(|asked| *asked)
}

/// Picks all.
fn pick_all(vids: &mut [bool])
    ensures { vids.new ≡ replicate (length vids.old) true }
{
    for asked in vids.iter_mut() {
        *asked = true;
    }
}
