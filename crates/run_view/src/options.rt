//! Options of a block.
ghost use Rattle.std.specs.Prelude.{◌≡◌, ◌≤◌, ◌+◌, ◌++◌, length};
ghost use Rattle.run_view.specs.Blocks.{option_text, padding};

use crate::numbers::put_two;
use decision_lines::Line;

/// What is padded is padded with these.
const ZEROS: [u8; 3] = [0, 0, 0];

/// Puts zeros behind so many octets, up to a multiple of four.
#[inline(always)]
#[tactic(auto, unfolding(crate::specs::Blocks::padding))]
pub(crate) fn put_padding(line: &mut Line, size: usize)
    requires short { size ≤ 262144 }
    requires room { length line.old + 3 ≤ 65536 }
    ensures text { line.new ≡ line.old ++ padding size }
    ensures len { length line.new ≤ length line.old + 3 }
{
    let missing = (size + 3) / 4 * 4 - size;
    line.put_text(&ZEROS[..missing]);
}

/// Puts an option.
#[inline(always)]
#[tactic(auto, unfolding(crate::specs::Blocks::option_text))]
pub(crate) fn put_option(line: &mut Line, code: u16, value: &[u8])
    requires short { length value.now ≤ 65000 }
    requires room { length line.old + length value.now + 7 ≤ 65536 }
    ensures text { line.new ≡ line.old ++ option_text code value.now }
    ensures len { length line.new ≤ length line.old + length value.now + 7 }
{
    put_two(line, code);
    put_two(line, value.len() as u16);
    line.put_text(value);
    put_padding(line, value.len());
}
