//! What a packet carries, read back from its key.
ghost use Rattle.std.specs.Prelude.{◌≡◌, MatchOption, None, Some};
ghost use Rattle.capture_compare.specs.KeyRead.{addr_by, addr_split, counted_split, key_read, kind_by, read_behind, vni_split};

use crate::carried::Tunnelled;
use crate::lonely::octets::array_of;
use wire::ip_udp::{Addr, Tunnel};
use wire::vxlan::Vni;

/// How many octets of options a packet has at most.
const MOST_OPTIONS: usize = 252;

/// What a packet carries in a tunnel, by its key; nothing where the key is that of a packet of no tunnel.
pub fn tunnelled_by_key(key: &[u8]) -> Option<Tunnelled<'_>>
    ensures { result ≡ key_read key.now }
{
    match key {
        [mark, rest @ ..] => read_behind(kind_by(*mark)?, rest),
        [] => None,
    }
}

/// The kind of tunnel that has this mark.
fn kind_by(mark: u8) -> Option<Tunnel>
    ensures { result ≡ kind_by mark }
{
    match mark {
        1 => Some(Tunnel::Vxlan),
        2 => Some(Tunnel::Geneve),
        _ => None,
    }
}

/// What stands behind the mark of a kind.
fn read_behind<'a>(kind: Tunnel, text: &'a [u8]) -> Option<Tunnelled<'a>>
    ensures { result ≡ read_behind kind text.now }
{
    let Some((source, text)) = addr_split(text) else {
        return None;
    };
    let Some((destination, text)) = addr_split(text) else {
        return None;
    };
    let Some((vni, text)) = vni_split(text) else {
        return None;
    };
    let Some((options, inner)) = counted_split(text) else {
        return None;
    };
    if options.len() > MOST_OPTIONS {
        return None;
    }
    Some(Tunnelled {
        kind,
        source,
        destination,
        vni,
        options,
        inner,
    })
}

/// The part of a text with its length in front, and what stands behind it.
fn counted_split(text: &[u8]) -> Option<(&[u8], &[u8])>
    ensures { MatchOption result (counted_split text.now ≡ None) (λ p. counted_split text.now ≡ Some (p.0.now, p.1.now)) }
{
    let [count, rest @ ..] = text else {
        return None;
    };
    let count = usize::from(*count);
    if count > rest.len() {
        return None;
    }
    Some((&rest[..count], &rest[count..]))
}

/// The address with its length in front, and what stands behind it.
fn addr_split(text: &[u8]) -> Option<(Addr, &[u8])>
    ensures { MatchOption result (addr_split text.now ≡ None) (λ p. addr_split text.now ≡ Some (p.0, p.1.now)) }
{
    let Some((octets, rest)) = counted_split(text) else {
        return None;
    };
    match addr_by(octets) {
        Some(addr) => Some((addr, rest)),
        None => None,
    }
}

/// The address that has these octets.
fn addr_by(octets: &[u8]) -> Option<Addr>
    ensures { result ≡ addr_by octets.now }
{
    match octets.len() {
        4 => Some(Addr::V4(array_of(octets))),
        16 => Some(Addr::V6(array_of(octets))),
        _ => None,
    }
}

/// The VNI in front of a text, and what stands behind it.
fn vni_split(text: &[u8]) -> Option<(Vni, &[u8])>
    ensures { MatchOption result (vni_split text.now ≡ None) (λ p. vni_split text.now ≡ Some (p.0, p.1.now)) }
{
    match text {
        [high, middle, low, rest @ ..] => Some((Vni::from_octets([*high, *middle, *low]), rest)),
        _ => None,
    }
}
