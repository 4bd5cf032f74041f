//! What the lines of a text tell, one by one.
ghost use Rattle.std.specs.Prelude.{◌≡◌};
ghost use Rattle.tunnel_traffic.specs.Tables.{endpoint_key};
ghost use Rattle.tunnel_traffic.specs.Rows.{flows_in, endpoint_of, kind_of, remote_in, row_in};
ghost use Rattle.tunnel_traffic.specs.Rows.{unknown_by, unknown_in, unknown_of, vni_of, vni_numbered};

use crate::rows::{Traffic, TunnelKey};
use crate::told::address::addr_of;
use line_words::{behind_word, first_word, number_of, split_at_first};
use wire::ip_udp::{Addr, Tunnel};
use wire::vxlan::Vni;

/// What a line tells. Whether the line is written as it has to be is seen where all of them are written again.
#[derive(Clone, Copy, Debug)]
pub enum Row {
    /// How many packets were of a network that no segment has, by the sender.
    Unknown(TunnelKey, u64),
    /// How many were of all further networks and senders.
    UnknownOthers(u64),
    /// What came from a remote endpoint, and what left there.
    Remote(TunnelKey, Traffic),
    /// The same of all further remote endpoints.
    RemoteOthers(Traffic),
}

/// What a line tells, without its line feed. None: it tells nothing of tunnels.
#[tactic(auto, unfolding(crate::specs::Rows::row_in))]
pub fn row_in(line: &[u8]) -> Option<Row>
    ensures { result ≡ row_in line.now }
{
    let (what, words) = first_word(line);
    if what == b"unknown".as_slice() {
        return unknown_in(words);
    }
    if what == b"remote".as_slice() {
        return remote_in(words);
    }
    None
}

/// `KIND V from ADDRESS N`, `others N`.
fn unknown_in(words: &[u8]) -> Option<Row>
    ensures { result ≡ unknown_in words.now }
{
    let (word, behind) = first_word(words);
    if word == b"others".as_slice() {
        let count = number_of(behind)?;
        return Some(Row::UnknownOthers(count));
    }
    let kind = kind_of(word)?;
    unknown_of(kind, behind)
}

/// `V from ADDRESS N` of a kind.
fn unknown_of(kind: Tunnel, words: &[u8]) -> Option<Row>
    ensures { result ≡ unknown_of kind words.now }
{
    let (word, behind) = first_word(words);
    let vni = vni_of(word)?;
    unknown_by(kind, vni, behind)
}

/// `from ADDRESS N` of a network.
fn unknown_by(kind: Tunnel, vni: Vni, words: &[u8]) -> Option<Row>
    ensures { result ≡ unknown_by kind vni words.now }
{
    let (word, behind) = first_word(behind_word(words));
    let address = addr_of(word)?;
    let count = number_of(behind)?;
    Some(Row::Unknown(TunnelKey { kind, vni, address }, count))
}

/// `KIND:ADDRESS in N OCTETS out N OCTETS`, `others in N OCTETS out N OCTETS`.
fn remote_in(words: &[u8]) -> Option<Row>
    ensures { result ≡ remote_in words.now }
{
    let (word, behind) = first_word(words);
    let traffic = flows_in(behind)?;
    if word == b"others".as_slice() {
        return Some(Row::RemoteOthers(traffic));
    }
    let key = endpoint_of(word)?;
    Some(Row::Remote(key, traffic))
}

/// `in N OCTETS out N OCTETS`.
fn flows_in(words: &[u8]) -> Option<Traffic>
    ensures { result ≡ flows_in words.now }
{
    let (word, behind) = first_word(behind_word(words));
    let came = number_of(word)?;
    let (word, behind) = first_word(behind);
    let came_octets = number_of(word)?;
    let (word, behind) = first_word(behind_word(behind));
    let left = number_of(word)?;
    let left_octets = number_of(behind)?;
    Some(Traffic {
        came,
        came_octets,
        left,
        left_octets,
    })
}

/// The remote endpoint `KIND:ADDRESS`.
fn endpoint_of(word: &[u8]) -> Option<TunnelKey>
    ensures { result ≡ endpoint_of word.now }
{
    let (kind, address) = split_at_first(b':', word);
    let kind = kind_of(kind)?;
    let address = addr_of(address)?;
    Some(all_networks(kind, address))
}

/// All networks of a remote endpoint.
fn all_networks(kind: Tunnel, address: Addr) -> TunnelKey
    ensures { result ≡ endpoint_key kind address }
{
    TunnelKey {
        kind,
        vni: Vni::from_octets([0; 3]),
        address,
    }
}

/// The kind of this name.
fn kind_of(word: &[u8]) -> Option<Tunnel>
    ensures { result ≡ kind_of word.now }
{
    if word == b"vxlan".as_slice() {
        return Some(Tunnel::Vxlan);
    }
    if word == b"geneve".as_slice() {
        return Some(Tunnel::Geneve);
    }
    None
}

/// The network that a word numbers.
fn vni_of(word: &[u8]) -> Option<Vni>
    ensures { result ≡ vni_of word.now }
{
    let number = number_of(word)?;
    vni_numbered(number)
}

/// The network of this number, where there is one.
fn vni_numbered(number: u64) -> Option<Vni>
    ensures { result ≡ vni_numbered number }
{
    if number < 1 << 24 {
        Vni::new(number as u32)
    } else {
        None
    }
}
