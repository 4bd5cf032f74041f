//! The text of a record, as it stands in a classic capture, and the name of an interface.
ghost use Rattle.std.specs.Prelude.{◌≡◌, OnOk};
ghost use Rattle.split_on_files.specs.Steps.{name_text};
ghost use Rattle.pcap.specs.Record.{IsWithinLimits};
ghost use Rattle.pcap.specs.Written.{written_record};
ghost use Rattle.pcapng_input.specs.Interface.{name_told};

use pcap::text::Record;
use pcapng_input::{Block, name_told, put_packet};
use std::alloc::AllocError;

/// Puts the text of a record in place of what stood in a room.
pub fn put_record(room: &mut Vec<u8>, packet: &Record<'_>) -> Result<(), AllocError>
    requires { IsWithinLimits packet.now }
    ensures { OnOk result (room.new.items ≡ written_record packet.now) }
{
    room.clear();
    put_packet(room, packet)
}

/// Puts the name of the interface that a block describes in place of what stood in a room.
pub fn put_name(room: &mut Vec<u8>, block: &Block<'_>) -> Result<(), AllocError>
    ensures { OnOk result (room.new.items ≡ name_text (name_told block.now.order block.now.body)) }
{
    room.clear();
    match name_told(block.order, block.body) {
        Some(name) => room.extend_from_slice(name),
        None => Ok(()),
    }
}
