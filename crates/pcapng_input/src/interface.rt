//! Interfaces.
//!
//! Where the packets of one interface are asked for, a text is read as pcapng, and a classic capture has the fault NoSection:
//! it has no interfaces, and to take all its packets would let frames in twice, without a word. An option `if_tsresol` or
//! `if_tsoffset` that is shorter than its field is ShortBlock, where Wireshark takes the default: moments would be wrong by a
//! power of ten without a word. Of several options with one code the first counts.
ghost use Rattle.std.specs.Prelude.{◌≡◌, option_map};
ghost use Rattle.pcapng_input.specs.Interface.{described, name_told, resolution_of, offset_of, selects};

use crate::fault::BlockFault;
use crate::number::{number2, number4, number8};
use crate::option::{are_whole, value_of};
use pcap::text::Order;

/// The option that names an interface.
const NAME: u16 = 2;

/// The option with the length of a tick.
const RESOLUTION: u16 = 9;

/// The option with the seconds that are added to all moments.
const OFFSET: u16 = 14;

/// The interfaces whose packets are taken.
#[derive(Clone, Copy)]
pub enum Selection<'a> {
    /// All.
    All,
    /// The one with this number in its section, from 0.
    Number(u32),
    /// Those whose option `if_name` is this text.
    Name(&'a [u8]),
}

/// An interface, as its section describes it.
#[derive(Clone, Copy)]
pub struct Interface {
    /// Whether its packets are taken.
    pub is_selected: bool,
    pub link: u16,
    /// The octets that were captured of a packet at most; 0 is no limit.
    pub snap: u32,
    /// The option `if_tsresol`.
    pub resolution: u8,
    /// The option `if_tsoffset`, a signed number in two's complement.
    pub offset: u64,
}

/// Whether an interface with this number and name is selected.
fn selects(selection: Selection<'_>, number: usize, name: Option<&[u8]>) -> bool
    ensures { result ≡ selects selection.entry number (option_map (λ name. name.now) name.entry) }
{
    match selection {
        Selection::All => true,
        Selection::Number(selected) => selected as usize == number,
        Selection::Name(selected) => match name {
            Some(name) => name == selected,
            None => false,
        },
    }
}

/// The length of a tick by the value of its option: a microsecond without it.
fn resolution_of(value: Option<&[u8]>) -> Result<u8, BlockFault>
    ensures { result ≡ resolution_of (option_map (λ value. value.now) value.entry) }
{
    match value {
        None => Ok(6),
        Some(value) => {
            if value.is_empty() {
                return Err(BlockFault::ShortBlock);
            }
            Ok(value[0])
        }
    }
}

/// The seconds that are added by the value of their option: none without it.
fn offset_of(order: Order, value: Option<&[u8]>) -> Result<u64, BlockFault>
    ensures { result ≡ offset_of order (option_map (λ value. value.now) value.entry) }
{
    match value {
        None => Ok(0),
        Some(value) => {
            if value.len() < 8 {
                return Err(BlockFault::ShortBlock);
            }
            Ok(number8(order, value))
        }
    }
}

/// The interface that the body of its description says, the one with this number in its section.
#[tactic(auto, unfolding(crate::specs::Interface::described))]
pub fn described(
    selection: Selection<'_>,
    number: usize,
    order: Order,
    body: &[u8],
) -> Result<Interface, BlockFault>
    ensures { result ≡ described selection.entry number order body.now }
{
    if body.len() < 8 {
        return Err(BlockFault::ShortBlock);
    }
    let options = &body[8..];
    if !are_whole(order, options) {
        return Err(BlockFault::ShortBlock);
    }
    let resolution = resolution_of(value_of(order, options, RESOLUTION))?;
    let offset = offset_of(order, value_of(order, options, OFFSET))?;
    Ok(Interface {
        is_selected: selects(selection, number, value_of(order, options, NAME)),
        link: number2(order, body),
        snap: number4(order, &body[4..]),
        resolution,
        offset,
    })
}

/// The name that the body of an interface's description tells in its option `if_name`, where it has one.
#[tactic(auto, unfolding(crate::specs::Interface::name_told))]
pub fn name_told<'a>(order: Order, body: &'a [u8]) -> Option<&'a [u8]>
    ensures { option_map (λ name. name.now) result ≡ name_told order body.now }
{
    if body.len() < 8 {
        return None;
    }
    value_of(order, &body[8..], NAME)
}
