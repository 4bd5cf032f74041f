//! What names of events that ask for the first of a kind are read as.
ghost use Rattle.std.specs.Prelude.{◌≡◌, option_map};
ghost use Rattle.run_reports.specs.Sought.{address_in, behind, one_reason, reasons_in, reasons_of};

use config_text::mac_of;
use line_words::number_of;
use wire::ether::Mac;

/// The reasons that a name asks for.
#[derive(Clone, Copy)]
pub enum Reasons {
    /// None.
    No,
    /// That of this number, 1 to 40.
    One(u8),
    /// All, each by itself.
    Every,
}

/// The reasons that a name asks for: `drop:30`, `drop:any`.
pub fn reasons_in(name: &str) -> Reasons
    ensures { result ≡ reasons_in name.now }
{
    reasons_of(behind("drop:", name))
}

/// The reasons of a word.
fn reasons_of(word: Option<&str>) -> Reasons
    ensures { result ≡ reasons_of (option_map (λ w. w.now) word.entry) }
{
    match word {
        Some("any") => Reasons::Every,
        Some(word) => one_reason(number_of(word.as_bytes())),
        None => Reasons::No,
    }
}

/// The reason of a number.
fn one_reason(number: Option<u64>) -> Reasons
    ensures { result ≡ one_reason number }
{
    match number {
        Some(number) if 1 <= number && number <= 40 => Reasons::One(number as u8),
        _ => Reasons::No,
    }
}

/// The address that a name asks for: `mac:02:00:00:00:00:03`.
pub fn address_in(name: &str) -> Option<Mac>
    ensures { result ≡ address_in name.now }
{
    match behind("mac:", name) {
        Some(word) => mac_of(word),
        None => None,
    }
}

/// What stands behind these letters at the front of a text.
fn behind<'a>(letters: &str, text: &'a str) -> Option<&'a str>
    ensures { option_map (λ t. t.now) result ≡ behind letters.now text.entry.now }
{
    text.strip_prefix(letters)
}
