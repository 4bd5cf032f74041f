//! The bodies of the blocks that are no packets, put in a line.
ghost use Rattle.std.specs.Prelude.{◌≡◌, ◌≤◌, codes, length};
ghost use Rattle.run_view.specs.Blocks.{interface_block, journal_block, section_block};

use crate::numbers::{put_eight, put_four, put_two};
use crate::options::{put_option, put_padding};
use crate::packet::COMMENT;
use decision_lines::Line;

/// The types of blocks.
pub(crate) const SECTION_HEADER: u32 = 0x0A0D_0D0A;

pub(crate) const INTERFACE_DESCRIPTION: u32 = 1;

pub(crate) const ENHANCED_PACKET: u32 = 6;

pub(crate) const JOURNAL_EXPORT: u32 = 9;

/// What a section header begins its body with.
const BYTE_ORDER_MAGIC: u32 = 0x1A2B_3C4D;

/// The option that names the program.
const APPLICATION: u16 = 4;

/// The options of an interface: its name and the length of its ticks.
const NAME: u16 = 2;

const RESOLUTION: u16 = 9;

/// Ethernet, as a link type.
const ETHERNET: u16 = 1;

/// The octets of a record at most.
const SNAPSHOT: u32 = 262_144;

/// What the directions of packets say.
fn directions() -> &'static [u8]
    ensures value { result.now ≡ codes "inbound: captured; outbound: worked out by tep" }
    ensures short { length result.now ≤ 46 }
{
    b"inbound: captured; outbound: worked out by tep"
}

/// Puts the body of the section header.
#[tactic(auto, unfolding(crate::specs::Blocks::section_block))]
pub(crate) fn put_section(line: &mut Line)
    ensures body { line.new ≡ section_block.body }
    ensures len { length line.new ≤ 100 }
{
    line.clear();
    put_four(line, BYTE_ORDER_MAGIC);
    put_two(line, 1);
    put_two(line, 0);
    put_eight(line, u64::MAX);
    put_option(line, COMMENT, directions());
    put_option(line, APPLICATION, b"tep");
    put_four(line, 0);
}

/// Puts the body of the description of an interface of this name.
#[tactic(auto, unfolding(crate::specs::Blocks::interface_block))]
pub(crate) fn put_interface(line: &mut Line, name: &[u8])
    requires { length name.now ≤ 4 }
    ensures body { line.new ≡ (interface_block name.now).body }
    ensures len { length line.new ≤ 40 }
{
    line.clear();
    put_two(line, ETHERNET);
    put_two(line, 0);
    put_four(line, SNAPSHOT);
    put_option(line, NAME, name);
    put_option(line, RESOLUTION, &[9]);
    put_four(line, 0);
}

/// Puts the body of an entry of a journal, at a moment in nanoseconds.
#[tactic(auto, unfolding(crate::specs::Blocks::journal_block))]
pub(crate) fn put_journal(line: &mut Line, moment: u64, message: &[u8])
    requires { length message.now ≤ 65000 }
    ensures body { line.new ≡ (journal_block moment message.now).body }
    ensures len { length line.new ≤ 65100 }
{
    line.clear();
    line.put_text(b"__REALTIME_TIMESTAMP=");
    line.put_number(moment / 1000);
    line.put_text(b"\nSYSLOG_IDENTIFIER=tep\nMESSAGE=");
    line.put_text(message);
    line.put_octet(b'\n');
    let size = line.text().len();
    put_padding(line, size);
}
