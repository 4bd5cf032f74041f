//! Numbers as octets, the low one first.
ghost use Rattle.std.specs.Prelude.{◌≡◌, ◌≤◌, ◌+◌, ◌++◌, length};
ghost use Rattle.run_view.specs.Blocks.{eight, four, packet_front, two};

use byteorder::{ByteOrder, LittleEndian};
use decision_lines::Line;

/// Puts a number in two octets.
#[inline(always)]
#[tactic(auto, unfolding(crate::specs::Blocks::two))]
pub(crate) fn put_two(line: &mut Line, number: u16)
    requires room { length line.old + 2 ≤ 65536 }
    ensures text { line.new ≡ line.old ++ two number }
    ensures len { length line.new ≡ length line.old + 2 }
{
    let mut octets = [0; 2];
    LittleEndian::write_u16(&mut octets, number);
    line.put_text(&octets);
}

/// The same in four.
#[inline(always)]
#[tactic(auto, unfolding(crate::specs::Blocks::four))]
pub(crate) fn put_four(line: &mut Line, number: u32)
    requires room { length line.old + 4 ≤ 65536 }
    ensures text { line.new ≡ line.old ++ four number }
    ensures len { length line.new ≡ length line.old + 4 }
{
    let mut octets = [0; 4];
    LittleEndian::write_u32(&mut octets, number);
    line.put_text(&octets);
}

/// The same in eight.
#[inline(always)]
#[tactic(auto, unfolding(crate::specs::Blocks::eight))]
pub(crate) fn put_eight(line: &mut Line, number: u64)
    requires room { length line.old + 8 ≤ 65536 }
    ensures text { line.new ≡ line.old ++ eight number }
    ensures len { length line.new ≡ length line.old + 8 }
{
    let mut octets = [0; 8];
    LittleEndian::write_u64(&mut octets, number);
    line.put_text(&octets);
}

/// The front of a block: its type and its length.
#[inline(always)]
#[tactic(auto, unfolding(crate::specs::Blocks::four))]
pub(crate) fn block_front(kind: u32, size: u32) -> [u8; 8]
    ensures { result ≡ four kind ++ four size }
{
    let mut front = [0; 8];
    LittleEndian::write_u32(&mut front, kind);
    LittleEndian::write_u32(&mut front[4..], size);
    front
}

/// What stands in front of a packet's octets, behind the front of its block.
#[inline(always)]
#[tactic(auto, unfolding(crate::specs::Blocks::packet_front, crate::specs::Blocks::four))]
pub(crate) fn packet_front(interface: u32, moment: u64, captured: u32, original: u32) -> [u8; 20]
    ensures { result ≡ packet_front interface moment captured original }
{
    let mut front = [0; 20];
    LittleEndian::write_u32(&mut front, interface);
    LittleEndian::write_u32(&mut front[4..], (moment / 4_294_967_296) as u32);
    LittleEndian::write_u32(&mut front[8..], (moment % 4_294_967_296) as u32);
    LittleEndian::write_u32(&mut front[12..], captured);
    LittleEndian::write_u32(&mut front[16..], original);
    front
}
