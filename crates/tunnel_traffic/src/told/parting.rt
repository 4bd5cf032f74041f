//! Where the lines of tunnels begin in a summary.
ghost use Rattle.std.specs.Prelude.{◌≡◌, ◌<◌, ◌≤◌, length};
ghost use Rattle.line_words.specs.Places.{IsFirst};
ghost use Rattle.tunnel_traffic.specs.Parts.{IsLineEnd, IsParted, begins};

use line_words::{first_place, first_word};

/// What stands before the lines of tunnels in a summary, and these lines: those from the first one on that begins with
/// `unknown` or `remote`.
pub fn parted(text: &[u8]) -> (&[u8], &[u8])
    ensures { IsParted text.now result.0.now result.1.now }
{
    let mut at = 0;
    while at < text.len() && !begins(&text[at..]) {
        at = line_end(text, at);
    }
    (&text[..at], &text[at..])
}

/// Whether a line of tunnels begins a text.
fn begins(text: &[u8]) -> bool
    ensures { result ≡ begins text.now }
{
    let (word, _) = first_word(text);
    word == b"unknown".as_slice() || word == b"remote".as_slice()
}

/// Where the line ends that begins at a place: behind its line feed, or at the end of the text.
fn line_end(text: &[u8], at: usize) -> usize
    requires { at < length text.now }
    ensures { IsLineEnd text.now at result }
{
    match first_place(b'\n', text, at) {
        Some(end) => end + 1,
        None => text.len(),
    }
}
