//! What is told of a part's outputs, and the lines that tell it.
ghost use Rattle.std.specs.Prelude.{◌≡◌, ◌≢◌, ◌≤◌, ◌<◌, ◌^◌, ◌+◌, ℕ, List, [], ◌∷◌, ◌++◌, All, decimal, length, OnOk, MatchOption};
ghost use Rattle.octet_sums.specs.declared.fletcher.sum.OctetSum.{OctetSum as ASum};
ghost use Rattle.part_record.specs.Outputs.{IsOutput, IsTold, numbers, output_line, output_lines, output_word, sums};
ghost use Rattle.part_record.specs.declared.outputs.OutputFacts.{OutputFacts as AnOutput};

use crate::digest_lines::first_word;
use crate::facts::MOST_PORTS;
use crate::steps::{behind, first_line, number_of};
use arrayvec::ArrayVec;
use itoa::Buffer;
use octet_sums::fletcher::OctetSum;
use std::alloc::AllocError;

/// The most outputs that a part has: the decision lines, the underlay's capture and those of the ports.
pub const MOST_OUTPUTS: usize = MOST_PORTS + 2;

/// What is told of an output.
#[derive(Clone, Copy, Debug, Default, PartialEq, Eq)]
pub struct OutputFacts {
    /// How many records the capture has, or how many lines the decision lines are.
    pub records: u64,
    /// The number and the sums of its octets.
    pub sum: OctetSum,
}

/// What is told of a part's outputs: of the decision lines, of the underlay's capture, and then of port 1's, port 2's and so on.
pub type ToldOutputs = ArrayVec<OutputFacts, MOST_OUTPUTS>;

/// Puts a number and a character behind a text.
pub(crate) fn put_number(text: &mut Vec<u8>, number: u64, end: u8) -> Result<(), AllocError>
    ensures { OnOk result (text.new.items ≡ text.old.items ++ (decimal number ++ end ∷ [])) }
{
    text.extend_from_slice(Buffer::new().format(number).as_bytes())?;
    text.push(end)?;
    Ok(())
}

/// Puts the word of the line of the output at a place behind a text.
fn put_word(text: &mut Vec<u8>, place: usize) -> Result<(), AllocError>
    ensures { OnOk result (text.new.items ≡ text.old.items ++ output_word place) }
{
    match place {
        0 => text.extend_from_slice(b"output decisions "),
        1 => text.extend_from_slice(b"output u "),
        _ => put_port_word(text, place - 1),
    }
}

/// The same of a port's capture.
fn put_port_word(text: &mut Vec<u8>, port: usize) -> Result<(), AllocError>
    requires { 0 < port }
    ensures { OnOk result (text.new.items ≡ text.old.items ++ output_word (port + 1)) }
{
    text.extend_from_slice(b"output p")?;
    text.extend_from_slice(Buffer::new().format(port).as_bytes())?;
    text.push(b' ')?;
    Ok(())
}

/// Puts what is told of an output behind the word of its line.
fn put_numbers(text: &mut Vec<u8>, output: &OutputFacts) -> Result<(), AllocError>
    ensures { OnOk result (text.new.items ≡ text.old.items ++ numbers output.now) }
{
    put_number(text, output.records, b' ')?;
    put_number(text, output.sum.octets, b' ')?;
    put_number(text, output.sum.first, b' ')?;
    put_number(text, output.sum.second, b'\n')
}

/// Puts the lines of outputs behind a text.
pub(crate) fn put_outputs(text: &mut Vec<u8>, outputs: &[OutputFacts]) -> Result<(), AllocError>
    ensures { OnOk result (text.new.items ≡ text.old.items ++ output_lines 0 outputs.now) }
{
    for place in 0..outputs.len() {
        put_word(text, place)?;
        put_numbers(text, &outputs[place])?;
    }
    Ok(())
}

/// The number in front of a space, and what stands behind that.
fn number_then(text: &str) -> Option<(u64, &str)>
    ensures { MatchOption result ((n : ℕ) (rest : List ℕ) → n < 2 ^ 64 → text.now ≢ decimal n ++ 32 ∷ rest)
        (λ found. (found.0 < 2 ^ 64) × (text.now ≡ decimal found.0 ++ 32 ∷ found.1.now)) }
{
    let Some((digits, rest)) = first_word(text) else {
        return None;
    };
    let Some(number) = number_of(digits) else {
        return None;
    };
    Some((number, rest))
}

/// The number that a line is, and what stands behind the line.
fn last_number(text: &str) -> Option<(u64, &str)>
    ensures { MatchOption result ((n : ℕ) (rest : List ℕ) → n < 2 ^ 64 → text.now ≢ decimal n ++ 10 ∷ rest)
        (λ found. (found.0 < 2 ^ 64) × (text.now ≡ decimal found.0 ++ 10 ∷ found.1.now)) }
{
    let Some((digits, rest)) = first_line(text) else {
        return None;
    };
    let Some(number) = number_of(digits) else {
        return None;
    };
    Some((number, rest))
}

/// The number and the sums of octets that the end of a line tells, and what stands behind the line.
pub(crate) fn sum_told(text: &str) -> Option<(OctetSum, &str)>
    ensures { MatchOption result ((s : ASum) (rest : List ℕ) → IsTold s → text.now ≢ sums s ++ rest)
        (λ found. IsTold found.0 × (text.now ≡ sums found.0 ++ found.1.now)) }
{
    let Some((octets, summed)) = number_then(text) else {
        return None;
    };
    let Some((first, last)) = number_then(summed) else {
        return None;
    };
    let Some((second, rest)) = last_number(last) else {
        return None;
    };
    let sum = OctetSum {
        octets,
        first,
        second,
    };
    Some((sum, rest))
}

/// What is told of an output behind the word of its line, and what stands behind the line.
fn numbers_told(text: &str) -> Option<(OutputFacts, &str)>
    ensures { MatchOption result ((f : AnOutput) (rest : List ℕ) → IsOutput f → text.now ≢ numbers f ++ rest)
        (λ found. IsOutput found.0 × (text.now ≡ numbers found.0 ++ found.1.now)) }
{
    let Some((records, summed)) = number_then(text) else {
        return None;
    };
    let Some((sum, rest)) = sum_told(summed) else {
        return None;
    };
    Some((OutputFacts { records, sum }, rest))
}

/// What stands behind the word of the line of the output at a place.
fn behind_word(text: &str, place: usize) -> Option<&str>
    ensures { MatchOption result ((rest : List ℕ) → text.now ≢ output_word place ++ rest)
        (λ rest. text.now ≡ output_word place ++ rest.now) }
{
    match place {
        0 => behind(text, "output decisions "),
        1 => behind(text, "output u "),
        _ => behind_port(text, place - 1),
    }
}

/// The same of a port's capture.
fn behind_port(text: &str, port: usize) -> Option<&str>
    requires { 0 < port }
    ensures { MatchOption result ((rest : List ℕ) → text.now ≢ output_word (port + 1) ++ rest)
        (λ rest. text.now ≡ output_word (port + 1) ++ rest.now) }
{
    let mut buffer = Buffer::new();
    let numbered = behind(text, "output p")?;
    let told = behind(numbered, buffer.format(port))?;
    behind(told, " ")
}

/// What is told of the output at a place on its line, and what stands behind the line.
fn output_behind(text: &str, place: usize) -> Option<(OutputFacts, &str)>
    ensures { MatchOption result ((f : AnOutput) (rest : List ℕ) → IsOutput f → text.now ≢ output_line place f ++ rest)
        (λ found. IsOutput found.0 × (text.now ≡ output_line place found.0 ++ found.1.now)) }
{
    let told = behind_word(text, place)?;
    numbers_told(told)
}

/// What is told of outputs on their lines, of so many at most, and what stands behind these lines.
pub(crate) fn outputs_of(text: &str, most: usize) -> (ToldOutputs, &str)
    requires { most ≤ 257 }
    ensures read { text.now ≡ output_lines 0 result.0.items ++ result.1.now }
    ensures outputs { All IsOutput result.0.items }
    ensures few { length result.0.items ≤ most }
    ensures all { (f : AnOutput) (rest : List ℕ) → IsOutput f → length result.0.items < most
        → result.1.now ≢ output_line (length result.0.items) f ++ rest }
{
    let mut outputs = ArrayVec::new();
    let mut rest = text;
    let mut place = 0;
    while place < most {
        let Some(found) = output_behind(rest, place) else {
            return (outputs, rest);
        };
        let output = found.0;
        outputs.push(output);
        rest = found.1;
        place += 1;
    }
    (outputs, rest)
}
