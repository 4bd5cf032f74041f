//! Members by their names.
ghost use Rattle.std.specs.Prelude.{◌≡◌, ◌<◌, ◌≤◌, ◌++◌, decimal, length, map, OnOk};
ghost use Rattle.fabric_grid.specs.Names.{called, many, name_at, word, words};

use crate::rows::agrees;
use std::alloc::AllocError;

/// Puts a number in decimal digits.
pub(crate) fn put_number(text: &mut Vec<u8>, number: usize) -> Result<(), AllocError>
    ensures { OnOk result (text.new.items ≡ text.old.items ++ decimal number) }
{
    text.extend_from_slice(itoa::Buffer::new().format(number).as_bytes())
}

/// The name of a member.
fn name_at<'a>(names: &[&'a [u8]], x: usize) -> &'a [u8]
    requires { x < length names.now }
    ensures { result.now ≡ name_at (map (λ n. n.now) names.now) x }
{
    names[x]
}

/// Puts the name of a member, if it is among them, or if it isn't.
fn put_word(
    text: &mut Vec<u8>,
    names: &[&[u8]],
    set: &[bool],
    wanted: bool,
    x: usize,
) -> Result<(), AllocError>
    requires named { length names.now ≡ length set.now }
    requires inside { x < length set.now }
    ensures { OnOk result (text.new.items ≡ text.old.items ++ word (map (λ n. n.now) names.now) set.now wanted x) }
{
    if agrees(wanted, set[x]) {
        text.push(b' ')?;
        return text.extend_from_slice(name_at(names, x));
    }
    Ok(())
}

/// Puts the names of those that are among them, or of those that aren't.
#[tactic(auto, using(crate::proofs::Below::texts_more))]
pub(crate) fn put_words(
    text: &mut Vec<u8>,
    names: &[&[u8]],
    set: &[bool],
    wanted: bool,
) -> Result<(), AllocError>
    requires { length names.now ≡ length set.now }
    ensures { OnOk result (text.new.items ≡ text.old.items ++ words (map (λ n. n.now) names.now) set.now wanted) }
{
    for x in 0..set.len() {
        put_word(text, names, set, wanted, x)?;
    }
    Ok(())
}

/// How many are among them.
#[tactic(auto, using(crate::proofs::Below::count_more))]
fn many(set: &[bool]) -> usize
    ensures value { result ≡ many set.now }
    ensures few { result ≤ length set.now }
{
    let mut many: usize = 0;
    for x in 0..set.len() {
        if set[x] {
            many += 1;
        }
    }
    many
}

/// Puts what some members are called: `all`, `all but` a few, or their names.
#[tactic(auto, unfolding(crate::specs::Names::called))]
pub(crate) fn put_called(
    text: &mut Vec<u8>,
    names: &[&[u8]],
    set: &[bool],
) -> Result<(), AllocError>
    requires { length names.now ≡ length set.now }
    ensures { OnOk result (text.new.items ≡ text.old.items ++ called (map (λ n. n.now) names.now) set.now) }
{
    let inside = many(set);
    let outside = set.len() - inside;
    if outside <= 1 && 2 < set.len() {
        return text.extend_from_slice(b" all");
    }
    if outside <= 4 && 4 < inside {
        text.extend_from_slice(b" all but")?;
        return put_words(text, names, set, false);
    }
    put_words(text, names, set, true)
}
