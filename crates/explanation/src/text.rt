//! The texts of layers.
ghost use Rattle.std.specs.Prelude.{◌≡◌, ◌≤◌, ◌+◌, ◌∷◌, [], ◌++◌, IfOk, codes, decimal, length};
ghost use Rattle.std.specs.List.{flat_map};
ghost use Rattle.endpoint_core.specs.Decision.{octets_of};
ghost use Rattle.packet_layers.specs.Values.{word_of};
ghost use Rattle.explanation.specs.Text.{shown, head_line, payload_line, tail_line, stop_line, layers_text, explained};
ghost use Rattle.explanation.specs.declared.text.Values.TheVariants.{Hidden};

use endpoint_core::{Decision, result_text};
use packet_layers::words::Lines;
use packet_layers::{Head, HeadKind, Layers, Span, Stop};
use std::alloc::{AllocError, Global};

/// Whether the values of the headers stand in their lines.
#[derive(Clone, Copy)]
pub enum Values {
    /// A header's line is its kind, its place and its length.
    Hidden,
    /// Behind them stand the values of its fields, as [`packet_layers::words::put_values`] has them.
    Shown,
}

/// What was decided of a packet, and its layers: the decision as decision lines have it, a line for each header with its
/// place and its length in octets, one for the payload, one for each tail, and why no more is taken off. `AllocError`:
/// there was no room for the text.
pub fn explain(alloc: Global, decision: &Decision, layers: &Layers) -> Result<Vec<u8>, AllocError>
    ensures { IfOk result (λ text. text.items ≡ explained (octets_of decision.now) layers.now) }
{
    let mut text = result_text(alloc, decision)?;
    text.push(b'\n')?;
    let mut lines = Lines::new();
    write_layers(&mut lines, Values::Hidden, layers);
    text.extend_from_slice(lines.text())?;
    Ok(text)
}

/// Writes the lines of the layers of a packet, and no others.
pub(crate) fn write_layers(lines: &mut Lines, values: Values, layers: &Layers)
    ensures { lines.new ≡ layers_text values layers.now }
{
    lines.clear();
    put_heads(lines, values, layers.heads());
    put_payload(lines, layers.payload());
    put_tails(lines, layers.tails());
    put_stop(lines, layers.stop());
}

fn put_heads(lines: &mut Lines, values: Values, heads: &[Head])
    requires few { length heads.now ≤ 34 }
    requires room { length lines.old + 6810 ≤ 8192 }
    ensures text { lines.new ≡ lines.old ++ flat_map (head_line values) heads.now }
    ensures len { length lines.new ≤ length lines.old + 6800 }
{
    for head in heads {
        put_head(lines, values, head);
    }
}

/// Puts the line of a head.
fn put_head(lines: &mut Lines, values: Values, head: &Head)
    requires room { length lines.old + 210 ≤ 8192 }
    ensures text { lines.new ≡ lines.old ++ head_line values head.now }
    ensures len { length lines.new ≤ length lines.old + 200 }
{
    put_word(lines, head.kind());
    lines.put_number(head.place() as u64);
    lines.put_text(b" ");
    lines.put_number(head.octets().len() as u64);
    put_shown(lines, values, head);
    lines.put_text(b"\n");
}

/// Puts the word of a kind between spaces, as a line begins with it.
#[inline(always)]
fn put_word(lines: &mut Lines, kind: HeadKind)
    requires room { length lines.old + 9 ≤ 8192 }
    ensures text { lines.new ≡ lines.old ++ (codes "  " ++ word_of kind ++ codes " ") }
    ensures len { length lines.new ≤ length lines.old + 9 }
{
    match kind {
        HeadKind::Ether => lines.put_text(b"  ether "),
        HeadKind::Tag => lines.put_text(b"  tag "),
        HeadKind::Kind => lines.put_text(b"  type "),
        HeadKind::Ip4 => lines.put_text(b"  ip4 "),
        HeadKind::Ip6 => lines.put_text(b"  ip6 "),
        HeadKind::Udp => lines.put_text(b"  udp "),
        HeadKind::Vxlan => lines.put_text(b"  vxlan "),
        HeadKind::Geneve => lines.put_text(b"  geneve "),
    }
}

/// Puts the values of a head, where they are shown.
fn put_shown(lines: &mut Lines, values: Values, head: &Head)
    requires room { length lines.old + 160 ≤ 8192 }
    ensures text { lines.new ≡ lines.old ++ shown values head.now }
    ensures len { length lines.new ≤ length lines.old + 140 }
{
    match values {
        Values::Hidden => {}
        Values::Shown => lines.put_values(head.kind(), head.octets()),
    }
}

fn put_payload(lines: &mut Lines, payload: &Span)
    requires room { length lines.old + 52 ≤ 8192 }
    ensures text { lines.new ≡ lines.old ++ payload_line payload.now }
    ensures len { length lines.new ≤ length lines.old + 52 }
{
    put_line(lines, b"  payload ", payload.place(), payload.octets());
}

fn put_tails(lines: &mut Lines, tails: &[Span])
    requires few { length tails.now ≤ 10 }
    requires room { length lines.old + 520 ≤ 8192 }
    ensures text { lines.new ≡ lines.old ++ flat_map tail_line tails.now }
    ensures len { length lines.new ≤ length lines.old + 520 }
{
    for tail in tails {
        put_line(lines, b"  tail ", tail.place(), tail.octets());
    }
}

/// Puts the line of a part of which no more is told: a word between spaces, its place and its length in octets.
fn put_line(lines: &mut Lines, word: &[u8], place: usize, octets: &[u8])
    requires short { length word.now ≤ 10 }
    requires room { length lines.old + 52 ≤ 8192 }
    ensures text { lines.new ≡ lines.old ++ (word.now ++ decimal place ++ codes " " ++ decimal (length octets.now) ++ 10 ∷ []) }
    ensures len { length lines.new ≤ length lines.old + 52 }
{
    lines.put_text(word);
    lines.put_number(place as u64);
    lines.put_text(b" ");
    lines.put_number(octets.len() as u64);
    lines.put_text(b"\n");
}

fn put_stop(lines: &mut Lines, stop: Stop)
    requires room { length lines.old + 60 ≤ 8192 }
    ensures { lines.new ≡ lines.old ++ stop_line stop }
{
    match stop {
        Stop::At(reason) => {
            lines.put_text(b"  stop ");
            lines.put_number(u64::from(reason.number()));
            lines.put_text(b" ");
            lines.put_text(reason.name().as_bytes());
            lines.put_text(b"\n");
        }
        Stop::Deep => lines.put_text(b"  stop Deep\n"),
    }
}
