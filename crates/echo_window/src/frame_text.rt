//! The octets of frames.
ghost use Rattle.std.specs.Prelude.{◌≡◌, ◌≤◌, ◌<◌, ◌+◌, ◌++◌, length};
ghost use Rattle.echo_window.specs.Bucket.{bucket_of};
ghost use Rattle.wire.specs.Octets.{is_same};

use crate::bucket::bucket_of;
use crate::window::MOST_OCTETS;
use octet_row::{Row, is_same};
use std::marker::Model;

/// The octets of a frame without its VLAN tag, seen by contracts as one text. It knows where frames of these octets are looked
/// for, which is worked out once: when the frame is met, and not again when it enters.
#[derive(Debug, Drop)]
pub struct FrameText<'a> {
    /// The octets before the tag. Where there is none: any of the first, or none.
    front: &'a [u8],
    /// The octets behind that.
    rest: &'a [u8],
    bucket: usize,
}

impl<'a> Model for FrameText<'a> {
    ghost use Rattle.std.specs.Prelude.{◌≡◌, ◌<◌, ◌++◌, ℕ, List};
    ghost use Rattle.echo_window.specs.Bucket.{bucket_of};

    ghost Value = { List ℕ };

    ghost view = { λ t. t.front.now ++ t.rest.now };

    ghost invariant = { λ t. (t.bucket ≡ bucket_of (t.front.now ++ t.rest.now)) × (t.bucket < 16384) };
}

impl<'a> FrameText<'a> {
    /// The octets of two texts, one behind the other.
    #[inline(always)]
    pub fn new(front: &'a [u8], rest: &'a [u8]) -> FrameText<'a>
        ensures { result ≡ front.now ++ rest.now }
    {
        FrameText {
            front,
            rest,
            bucket: bucket_of(front, rest),
        }
    }

    /// Where frames of these octets are looked for.
    #[inline(always)]
    pub(crate) fn bucket(&self) -> usize
        ensures value { result ≡ bucket_of self.now }
        ensures bound { result < 16384 }
    {
        self.bucket
    }

    /// How many octets it has.
    #[inline(always)]
    pub(crate) fn octet_count(&self) -> usize
        ensures { result ≡ length self.now }
    {
        self.front.len() + self.rest.len()
    }

    /// Whether a text has the same.
    #[inline(always)]
    pub(crate) fn is_same_as(&self, text: &[u8]) -> bool
        ensures { result ≡ is_same text.now self.now }
    {
        is_joined(text, self.front, self.rest)
    }

    /// Puts its octets behind those of a row.
    #[inline(always)]
    pub(crate) fn put_behind(&self, row: &mut Row<MOST_OCTETS>)
        requires { length row.old + length self.now ≤ 4194304 }
        ensures { row.new ≡ row.old ++ self.now }
    {
        row.put(self.front, self.rest);
    }
}

/// Whether a text is two others, one behind the other.
#[inline(always)]
#[tactic(auto, using(crate::proofs::Texts::same_parts, crate::proofs::Texts::too_short))]
fn is_joined(text: &[u8], front: &[u8], rest: &[u8]) -> bool
    ensures { result ≡ is_same text.now (front.now ++ rest.now) }
{
    if text.len() < front.len() {
        return false;
    }
    let (begin, end) = text.split_at(front.len());
    is_same(begin, front) && is_same(end, rest)
}
