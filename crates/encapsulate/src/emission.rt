//! What leaves at one outlet.
//!
//! An emission is seen by contracts as its four parts: head, addresses, tag, body. Its text is these side by side.
//! `append_to` asks for the memory of the whole emission first, so a refusal adds nothing, and none comes where there is
//! room. The parts are pinned beside the text: two emissions of one text may be cut in another place, as a tag in front of
//! the body. The head of a packet is said to be all that stands before the frame in the packet's text.
ghost use Rattle.std.specs.Prelude.{◌≡◌, ◌<◌, ◌≤◌, ◌⊎◌, ◌+◌, ◌++◌, ℕ, [], ◌∷◌, map, length, unwrap_or, OnOk, OnErr};
ghost use Rattle.std.specs.Prelude.{vec_len, vec_capacity};
ghost use Rattle.std.specs.List.{concat};
ghost use Rattle.encapsulate.specs.Emission.{no_parts, text, around, local_text, local_parts, local_tag};
ghost use Rattle.overlay.specs.declared.ports.member.Egress.TheVariants.{Tagged};

use overlay::ports::Egress;
use std::alloc::AllocError;
use std::marker::Model;
use wire::ether::{BridgeFrame, CUSTOMER_TAG, Vid};
use wire::outer::Head;

/// The octets of a tag.
const TAG: usize = 4;

/// The octets that leave at one outlet, in four parts, seen by contracts as these parts. Only the head and the tag are
/// its own; the addresses and the body are slices of the frame.
#[derive(Debug, Drop)]
pub struct Emission<'a> {
    head: Head,
    addresses: &'a [u8],
    tag: Option<[u8; 4]>,
    body: &'a [u8],
}

impl<'a> Model for Emission<'a> {
    ghost use Rattle.std.specs.Prelude.{◌≤◌, length, unwrap_or, []};
    ghost use Rattle.encapsulate.specs.Emission.{Parts};

    ghost Value = { Parts };

    ghost view = { λ e. record { head = e.head.items; addresses = e.addresses.now; tag = unwrap_or e.tag []; body = e.body.now } };

    ghost invariant = { λ e. length e.addresses.now ≤ 12 };
}

impl<'a> Default for Emission<'a> {
    ghost is_default = { λ emission. emission ≡ no_parts };

    /// No octets: what stands in the free places of a list of fixed capacity.
    fn default() -> Emission<'a> {
        Emission {
            head: Head::new(),
            addresses: &[],
            tag: None,
            body: &[],
        }
    }
}

impl<'a> Emission<'a> {
    /// A frame without a tag behind a head.
    pub(crate) fn behind(head: Head, frame: &BridgeFrame<'a>) -> Emission<'a>
        ensures { result ≡ around head.items [] frame.now }
    {
        Emission {
            head,
            addresses: frame.addresses,
            tag: None,
            body: frame.body,
        }
    }

    /// The number of octets.
    pub fn len(&self) -> usize
        ensures { result ≡ length (text self.now) }
    {
        self.head.len() + self.addresses.len() + self.tag().len() + self.body.len()
    }

    /// The parts, which make up the whole side by side: a head of at most 70 octets, which is empty at a local port,
    /// the destination and source of the frame, a tag of 4 octets or none, and the body of the frame.
    pub fn parts(&self) -> [&[u8]; 4]
        ensures whole { concat (map (λ part. part.now) result) ≡ text self.now }
        ensures each { let e = self.now in map (λ part. part.now) result ≡ e.head ∷ e.addresses ∷ e.tag ∷ e.body ∷ [] }
        ensures head { length self.now.head ≤ 70 }
        ensures addresses { length self.now.addresses ≤ 12 }
        ensures tag { length self.now.tag ≤ 4 }
        ensures whole_tag { (length self.now.tag ≡ 0) ⊎ (length self.now.tag ≡ 4) }
    {
        four(self.head.as_slice(), self.addresses, self.tag(), self.body)
    }

    /// The octets of the tag, if there is one.
    fn tag(&self) -> &[u8]
        ensures value { result.now ≡ self.now.tag }
        ensures few { length result.now ≤ 4 }
        ensures whole { (length result.now ≡ 0) ⊎ (length result.now ≡ 4) }
    {
        match &self.tag {
            Some(tag) => tag,
            None => &[],
        }
    }

    /// Adds the octets at the end. Where memory is refused nothing changes; none is asked for where there is room.
    pub fn append_to(&self, out: &mut Vec<u8>) -> Result<(), AllocError>
        ensures ok { OnOk result (out.new.items ≡ out.old.items ++ text self.now) }
        ensures err { OnErr result (out.new.items ≡ out.old.items) }
        ensures full { OnErr result (vec_capacity out.old < vec_len out.old + length (text self.now)) }
    {
        out.reserve(self.len())?;
        put(out, self.head.as_slice());
        put(out, self.addresses);
        put(out, self.tag());
        put(out, self.body);
        Ok(())
    }
}

/// Adds octets for which there is room.
fn put(out: &mut Vec<u8>, octets: &[u8])
    requires { vec_len out.old + length octets.now ≤ vec_capacity out.old }
    ensures items { out.new.items ≡ out.old.items ++ octets.now }
    ensures capacity { vec_capacity out.old ≤ vec_capacity out.new }
{
    match out.extend_from_slice(octets) {
        Ok(()) => {}
        Err(_) => unreachable!(),
    }
}

/// Four slices as one array, where each may live longer than the array.
fn four<'b>(first: &'b [u8], second: &'b [u8], third: &'b [u8], fourth: &'b [u8]) -> [&'b [u8]; 4]
    ensures { map (λ part. part.now) result ≡ first.now ∷ second.now ∷ third.now ∷ fourth.now ∷ [] }
{
    [first, second, third, fourth]
}

/// The frame as it leaves at a local port of its segment (IEEE 802.1Q, 8.8): as it is, or with a tag of type 8100 that
/// has the frame's priority and drop eligible bit and the segment's VID.
pub fn local<'a>(vid: Vid, egress: Egress, frame: &BridgeFrame<'a>) -> Emission<'a>
    ensures text { text result ≡ local_text vid egress frame.now }
    ensures parts { result ≡ local_parts vid egress frame.now }
{
    let head = Head::new();
    Emission {
        head,
        addresses: frame.addresses,
        tag: local_tag(vid, egress, frame),
        body: frame.body,
    }
}

/// How many octets the frame has as it leaves at a local port of its segment.
pub fn local_size(egress: Egress, frame: &BridgeFrame) -> usize
    ensures { (vid : ℕ) → result ≡ length (local_text vid egress frame.now) }
{
    let tag = match egress {
        Egress::Tagged => TAG,
        Egress::Untagged => 0,
    };
    frame.addresses.len() + tag + frame.body.len()
}

/// The tag that a frame leaves with at a local port of its segment (IEEE 802.1Q, 8.8 and 9.6), if it leaves with one.
#[inline(always)]
pub fn local_tag(vid: Vid, egress: Egress, frame: &BridgeFrame) -> Option<[u8; 4]>
    ensures tag { unwrap_or result [] ≡ local_tag vid egress frame.now }
    ensures text { let f = frame.now in (f.dst ++ f.src) ++ (unwrap_or result [] ++ f.body) ≡ local_text vid egress f }
{
    match egress {
        Egress::Tagged => Some(tag_of(vid, frame)),
        Egress::Untagged => None,
    }
}

/// The tag of a frame in a segment (IEEE 802.1Q, 9.6).
pub(crate) fn tag_of(vid: Vid, frame: &BridgeFrame) -> [u8; 4]
    ensures { result ≡ local_tag vid Tagged frame.now }
{
    let tci = u16::from(frame.pcp) * 8192 + u16::from(frame.dei) * 4096 + vid.get();
    let [type_high, type_low] = CUSTOMER_TAG.to_be_bytes();
    let [high, low] = tci.to_be_bytes();
    [type_high, type_low, high, low]
}
