//! The words of a line, by their places.
ghost use Rattle.std.specs.Prelude.{◌≡◌, ◌<◌, ◌≤◌, ◌+◌, ◌==◌, true, false, MatchOption, count_by, drop, length, take};
ghost use Rattle.line_words.specs.Words.{behind, word};
ghost use Rattle.part_lines.specs.Facts.{has_result, result_in};

use line_words::first_place;

/// Where the word ends that begins there.
#[inline]
pub(crate) fn word_end(line: &[u8], from: usize) -> usize
    requires { from ≤ length line.now }
    ensures low { from ≤ result }
    ensures high { result ≤ length line.now }
    ensures word { word (drop from line.now) ≡ drop from (take result line.now) }
    ensures behind { behind (drop from line.now) ≡ drop (result + 1) line.now }
    ensures last { result ≡ length line.now → count_by (λ c. c == 32) (drop from line.now) ≡ 0 }
    ensures inner { result < length line.now
        → count_by (λ c. c == 32) (drop from line.now) ≡ count_by (λ c. c == 32) (drop (result + 1) line.now) + 1 }
{
    match first_place(b' ', line, from) {
        Some(end) => end,
        None => line.len(),
    }
}

/// Where the field behind that which begins there begins, if there is one.
#[inline]
fn field_behind(line: &[u8], from: usize) -> Option<usize>
    ensures { MatchOption result (count_by (λ c. c == 32) (drop from line.now) ≡ 0)
        (λ next. (behind (drop from line.now) ≡ drop next line.now)
        × (count_by (λ c. c == 32) (drop from line.now) ≡ count_by (λ c. c == 32) (drop next line.now) + 1)) }
{
    match first_place(b' ', line, from) {
        Some(end) => Some(end + 1),
        None => None,
    }
}

/// Where the result of a line begins, whose first word ends there: behind five spaces, if it has so many.
pub(crate) fn result_at(line: &[u8], end: usize) -> Option<usize>
    requires high { end ≤ length line.now }
    requires behind { behind line.now ≡ drop (end + 1) line.now }
    requires last { end ≡ length line.now → count_by (λ c. c == 32) line.now ≡ 0 }
    requires inner { end < length line.now
        → count_by (λ c. c == 32) line.now ≡ count_by (λ c. c == 32) (drop (end + 1) line.now) + 1 }
    ensures { MatchOption result (has_result line.now ≡ false)
        (λ at. (has_result line.now ≡ true) × (result_in line.now ≡ drop at line.now)) }
{
    if end == line.len() {
        return None;
    }
    let source = field_behind(line, end + 1)?;
    let number = field_behind(line, source)?;
    let segment = field_behind(line, number)?;
    field_behind(line, segment)
}
