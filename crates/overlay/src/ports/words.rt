//! The words in which the members of all segments stand (IEEE 802.1Q, 8.8).
//!
//! Each 64 ports have two columns, and a column has a word for each of the 4,096 numbers of 12 bits. A port's bit says in the
//! first column whether the port is a member, and in the second whether frames leave there untagged. No port has the number 0:
//! its bit in the first of all columns says whether there is such a segment. What else stands in the words of a VID that has
//! none counts for nothing.
ghost use Rattle.std.specs.Prelude.{◌≡◌, ◌≤◌, ◌<◌, ◌+◌, ◌*◌, ◌/◌, ◌%◌, ◌==◌, ◌&&◌, ◌||◌, ℕ, length, if◌then◌else◌, None, not};
ghost use Rattle.std.specs.Prelude.{false, nat_lt, slice_index_or};
ghost use Rattle.overlay.specs.Bits.{has_bit, stands_in, egress_in, is_untagged};

use crate::ports::Egress;
use wire::ether::Vid;

/// The words of a column.
const NUMBERS: usize = 4096;

/// The words of the two columns of 64 ports.
const TWO_COLUMNS: usize = 2 * NUMBERS;

/// How many words there are for so many ports.
pub(crate) fn word_count(ports: usize) -> usize
    requires { ports ≤ 255 }
    ensures { result ≡ (ports / 64 + 1) * 8192 }
{
    (ports / 64 + 1) * TWO_COLUMNS
}

/// Whether there is a segment.
#[inline(always)]
pub(crate) fn stands(words: &[u64], vid: Vid) -> bool
    requires { 8192 ≤ length words.now }
    ensures { result ≡ stands_in words.now vid }
{
    is_set(words, usize::from(vid.get()), 0)
}

/// How the frames of a segment leave at a port, where that is a member.
#[inline(always)]
pub(crate) fn egress(words: &[u64], vid: Vid, port: u8) -> Option<Egress>
    requires { (port / 64 + 1) * 8192 ≤ length words.now }
    ensures { result ≡ egress_in words.now vid port }
{
    let place = place_of(vid, port);
    if !is_set(words, place, bit_of(port)) {
        return None;
    }
    if is_set(words, place + NUMBERS, bit_of(port)) {
        return Some(Egress::Untagged);
    }
    Some(Egress::Tagged)
}

/// The word with the member bits of 64 ports, from so many times 64 on.
#[inline(always)]
pub(crate) fn members_word(words: &[u64], vid: Vid, column: u8) -> u64
    requires { (column + 1) * 8192 ≤ length words.now }
    ensures { result ≡ slice_index_or words.now (column * 8192 + vid) 0 }
{
    words[usize::from(column) * TWO_COLUMNS + usize::from(vid.get())]
}

/// Makes a port a member of a segment whose frames leave so, or no member.
pub(crate) fn set_egress(words: &mut [u64], vid: Vid, port: u8, egress: Option<Egress>)
    requires low { 1 ≤ port }
    requires fits { (port / 64 + 1) * 8192 ≤ length words.old }
    ensures egress { (v p : ℕ) → v < 4096
        → egress_in words.new v p ≡ (if v == vid && p == port then egress else egress_in words.old v p) }
    ensures stands { (v : ℕ) → v < 4096 → stands_in words.new v ≡ stands_in words.old v }
{
    let place = place_of(vid, port);
    let bit = bit_of(port);
    put(words, place, bit, egress.is_some());
    put(words, place + NUMBERS, bit, is_untagged(egress));
}

/// Whether frames leave untagged.
fn is_untagged(egress: Option<Egress>) -> bool
    ensures { result ≡ is_untagged egress }
{
    matches!(egress, Some(Egress::Untagged))
}

/// Adds a segment without members.
pub(crate) fn add(words: &mut [u64], vid: Vid, ports: usize)
    requires few { ports ≤ 255 }
    requires fits { (ports / 64 + 1) * 8192 ≤ length words.old }
    ensures egress { (v p : ℕ) → v < 4096 → 1 ≤ p → p ≤ ports
        → egress_in words.new v p ≡ (if v == vid then None else egress_in words.old v p) }
    ensures stands { (v : ℕ) → v < 4096 → stands_in words.new v ≡ (v == vid || stands_in words.old v) }
{
    clear(words, vid, ports);
    put(words, usize::from(vid.get()), 0, true);
}

/// Removes a segment.
pub(crate) fn remove(words: &mut [u64], vid: Vid)
    requires { 8192 ≤ length words.old }
    ensures egress { (v p : ℕ) → v < 4096 → 1 ≤ p → egress_in words.new v p ≡ egress_in words.old v p }
    ensures stands { (v : ℕ) → v < 4096 → stands_in words.new v ≡ (if v == vid then false else stands_in words.old v) }
{
    put(words, usize::from(vid.get()), 0, false);
}

/// Makes the words of a VID 0 that have member bits.
fn clear(words: &mut [u64], vid: Vid, ports: usize)
    requires few { ports ≤ 255 }
    requires fits { (ports / 64 + 1) * 8192 ≤ length words.old }
    ensures { (q : ℕ) → slice_index_or words.new q 0
        ≡ (if q % 8192 == vid && nat_lt (q / 8192) (ports / 64 + 1) then 0 else slice_index_or words.old q 0) }
{
    for column in 0..ports / 64 + 1 {
        words[column * TWO_COLUMNS + usize::from(vid.get())] = 0;
    }
}

/// Where the word stands that has a port's member bit.
#[inline(always)]
fn place_of(vid: Vid, port: u8) -> usize
    ensures value { result ≡ port / 64 * 8192 + vid }
    ensures below { result < port / 64 * 8192 + 4096 }
{
    usize::from(port / 64) * TWO_COLUMNS + usize::from(vid.get())
}

/// The bit of a port in its words.
#[inline(always)]
fn bit_of(port: u8) -> u32
    ensures { result ≡ port % 64 }
{
    u32::from(port % 64)
}

/// Whether a bit is 1.
#[inline(always)]
fn is_set(words: &[u64], place: usize, bit: u32) -> bool
    requires place { place < length words.now }
    requires bit { bit < 64 }
    ensures { result ≡ has_bit words.now place bit }
{
    (words[place] >> bit) & 1 == 1
}

/// Makes a bit 1 or 0.
fn put(words: &mut [u64], place: usize, bit: u32, value: bool)
    requires place { place < length words.old }
    requires bit { bit < 64 }
    ensures { (q b : ℕ) → b < 64
        → has_bit words.new q b ≡ (if q == place && b == bit then value else has_bit words.old q b) }
{
    if value {
        words[place] |= 1 << bit;
    } else {
        words[place] &= !(1 << bit);
    }
}
