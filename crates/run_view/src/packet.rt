//! Packets, and what is said of them.
ghost use Rattle.std.specs.Prelude.{◌≡◌, ◌≤◌, ◌+◌, ◌++◌, length};
ghost use Rattle.pcapng_input.specs.Packet.{packet_flags};
ghost use Rattle.run_view.specs.Blocks.{eight, end_of_options, four, option_text, packet_id_option, packet_options, padding};

use crate::options::{put_option, put_padding};
use byteorder::{ByteOrder, LittleEndian};
use decision_lines::Line;
use std::marker::Model;

/// The option that is a comment.
pub(crate) const COMMENT: u16 = 1;

/// What a packet tells.
#[derive(Drop)]
pub(crate) struct Packet<'a> {
    /// The number of its interface, from 0.
    pub(crate) interface: u32,
    /// Nanoseconds.
    pub(crate) moment: u64,
    /// How many octets it had.
    pub(crate) original: u32,
    pub(crate) octets: &'a [u8],
}

impl<'a> Model for Packet<'a> {
    ghost use Rattle.run_view.specs.Blocks.{Packet};

    ghost Value = { Packet };

    ghost view = { λ p. record { interface = p.interface; moment = p.moment; original = p.original; octets = p.octets.now } };
}

/// What is said of a packet.
#[derive(Drop)]
pub(crate) struct Remark<'a> {
    pub(crate) comment: &'a [u8],
    /// 1 for what came, 2 for what left.
    pub(crate) direction: u32,
    /// The number of its event.
    pub(crate) event: u64,
}

impl<'a> Model for Remark<'a> {
    ghost use Rattle.run_view.specs.Blocks.{Remark};

    ghost Value = { Remark };

    ghost view = { λ r. record { comment = r.comment.now; direction = r.direction; event = r.event } };
}

/// Clears a line and puts what stands behind so many octets of a packet.
#[inline(always)]
#[tactic(auto, unfolding(crate::specs::Blocks::packet_options))]
pub(crate) fn put_remark(line: &mut Line, size: usize, remark: &Remark)
    requires size { size ≤ 262144 }
    requires short { length remark.now.comment ≤ 65000 }
    ensures text { line.new ≡ padding size ++ packet_options remark.now }
    ensures len { length line.new ≤ 65034 }
{
    line.clear();
    put_padding(line, size);
    put_option(line, COMMENT, remark.comment);
    line.put_text(&options_behind(remark.direction, remark.event));
}

/// The options behind a comment: a direction, the number of an event, and their end.
#[inline(always)]
#[tactic(auto, unfolding(crate::specs::Blocks::option_text, crate::specs::Blocks::two, crate::specs::Blocks::four, crate::specs::Blocks::eight, crate::specs::Blocks::padding))]
fn options_behind(direction: u32, event: u64) -> [u8; 24]
    ensures { result ≡ option_text packet_flags (four direction) ++ (option_text packet_id_option (eight event) ++ end_of_options) }
{
    let mut options = [
        2, 0, 4, 0, 0, 0, 0, 0, 5, 0, 8, 0, 0, 0, 0, 0, 0, 0, 0, 0, 0, 0, 0, 0,
    ];
    LittleEndian::write_u32(&mut options[4..], direction);
    LittleEndian::write_u64(&mut options[12..], event);
    options
}
