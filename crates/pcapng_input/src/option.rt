//! Options of a block.
ghost use Rattle.std.specs.Prelude.{◌≡◌, ◌≤◌, ◌+◌, length, IfSome, option_map};
ghost use Rattle.pcapng_input.specs.Options.{block_options, next_option, option_value};
ghost use Rattle.pcapng_input.specs.Seen.{IsShorterOption, block_option_seen};

use crate::number::number2;
use pcap::text::Order;
use std::marker::Model;

/// The octets in front of an option's value.
pub const OPTION_HEADER: usize = 4;

/// An option.
#[derive(Drop)]
pub struct BlockOption<'a> {
    pub code: u16,
    pub value: &'a [u8],
}

impl<'a> Model for BlockOption<'a> {
    ghost use Rattle.pcapng_input.specs.Options.{BlockOption};

    ghost Value = { BlockOption };

    ghost view = { λ o. record { code = o.code; value = o.value.now } };
}

/// What comes next in a text of options.
#[derive(Drop)]
pub enum NextOption<'a> {
    Another(BlockOption<'a>, &'a [u8]),
    Ends { is_whole: bool },
}

/// What comes next in a text of options.
#[tactic(auto, unfolding(crate::specs::Options::next_option))]
fn next_option<'a>(order: Order, text: &'a [u8]) -> NextOption<'a>
    ensures next { block_option_seen result ≡ next_option order text.now }
    ensures shorter { IsShorterOption (length text.now) result }
{
    if text.len() < OPTION_HEADER {
        return NextOption::Ends { is_whole: true };
    }
    let code = number2(order, text);
    if code == 0 {
        return NextOption::Ends { is_whole: true };
    }
    let size = usize::from(number2(order, &text[2..]));
    let end = OPTION_HEADER + (size + 3) / 4 * 4;
    if text.len() < end {
        return NextOption::Ends { is_whole: false };
    }
    let option = BlockOption {
        code,
        value: &text[OPTION_HEADER..OPTION_HEADER + size],
    };
    NextOption::Another(option, &text[end..])
}

/// Whether the options of a text end whole.
#[tactic(auto, using(crate::proofs::OptionLists::options_behind, crate::proofs::OptionLists::options_end))]
pub fn are_whole(order: Order, text: &[u8]) -> bool
    ensures { result ≡ (block_options order text.now).is_whole }
{
    let mut left = text;
    loop {
        match next_option(order, left) {
            NextOption::Another(_, rest) => left = rest,
            NextOption::Ends { is_whole } => return is_whole,
        }
    }
}

/// The value of the first option with this code.
#[tactic(auto, using(crate::proofs::OptionLists::options_behind, crate::proofs::OptionLists::options_end))]
pub fn value_of<'a>(order: Order, text: &'a [u8], code: u16) -> Option<&'a [u8]>
    ensures { option_map (λ value. value.now) result ≡ option_value code (block_options order text.now).options }
{
    let mut left = text;
    loop {
        match next_option(order, left) {
            NextOption::Another(option, rest) => {
                if option.code == code {
                    return Some(option.value);
                }
                left = rest;
            }
            NextOption::Ends { .. } => return None,
        }
    }
}
