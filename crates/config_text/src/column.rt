//! Columns: how the value of a key is read.
ghost use Rattle.std.specs.Prelude.{◌≡◌, ◌≤◌, IfSome, Option};
ghost use Rattle.toml.specs.Data.{Data};
ghost use Rattle.toml.specs.View.{view};
ghost use Rattle.config_text.specs.Column.{is_endpoint, range};

use crate::address::{addr_of, ip4_of, ip6_of, mac_of};
use toml::Value;
use wire::ether::{Mac, Vid};
use wire::ip_udp::Addr;

/// What the values of a key mean.
pub trait Column {
    type Out: Drop;

    /// What a value means, or nothing where its type or its range is wrong.
    ghost reads: { Self → Data → Option Self.Out };

    fn read(&self, value: &Value) -> Option<Self::Out>
        ensures { result ≡ reads self.now (view value.now) };
}

/// A whole number, both ends included.
fn number_within(value: &Value, low: u64, high: u64) -> Option<u64>
    ensures value { result ≡ range low high (view value.now) }
    ensures bounded { IfSome result (λ n. n ≤ high) }
{
    let n = u64::try_from(value.as_integer()?).ok()?;
    if low <= n && n <= high { Some(n) } else { None }
}

/// A whole number, both ends included.
#[derive(Clone, Copy)]
pub struct U64Range {
    pub low: u64,
    pub high: u64,
}

impl Column for U64Range {
    type Out = u64;

    ghost use Rattle.config_text.specs.Column.{range};

    ghost reads = { λ c. range c.low c.high };

    fn read(&self, value: &Value) -> Option<u64> {
        number_within(value, self.low, self.high)
    }
}

/// A whole number, both ends included.
#[derive(Clone, Copy)]
pub struct U32Range {
    pub low: u32,
    pub high: u32,
}

impl Column for U32Range {
    type Out = u32;

    ghost use Rattle.config_text.specs.Column.{range};

    ghost reads = { λ c. range c.low c.high };

    fn read(&self, value: &Value) -> Option<u32> {
        let n = number_within(value, u64::from(self.low), u64::from(self.high))?;
        Some(n as u32)
    }
}

/// A whole number, both ends included.
#[derive(Clone, Copy)]
pub struct U16Range {
    pub low: u16,
    pub high: u16,
}

impl Column for U16Range {
    type Out = u16;

    ghost use Rattle.config_text.specs.Column.{range};

    ghost reads = { λ c. range c.low c.high };

    fn read(&self, value: &Value) -> Option<u16> {
        let n = number_within(value, u64::from(self.low), u64::from(self.high))?;
        Some(n as u16)
    }
}

/// A whole number, both ends included.
#[derive(Clone, Copy)]
pub struct U8Range {
    pub low: u8,
    pub high: u8,
}

impl Column for U8Range {
    type Out = u8;

    ghost use Rattle.config_text.specs.Column.{range};

    ghost reads = { λ c. range c.low c.high };

    fn read(&self, value: &Value) -> Option<u8> {
        let n = number_within(value, u64::from(self.low), u64::from(self.high))?;
        Some(n as u8)
    }
}

/// The number of a VLAN, 1 to 4094 (IEEE 802.1Q, 9.6).
#[derive(Clone, Copy)]
pub struct VidNumber;

impl Column for VidNumber {
    type Out = Vid;

    ghost use Rattle.config_text.specs.Column.{range};

    ghost reads = { λ _. range 1 4094 };

    fn read(&self, value: &Value) -> Option<Vid> {
        Vid::new(u16::try_from(value.as_integer()?).ok()?)
    }
}

/// True or false.
#[derive(Clone, Copy)]
pub struct Truth;

impl Column for Truth {
    type Out = bool;

    ghost use Rattle.config_text.specs.Column.{truth};

    ghost reads = { λ _. truth };

    fn read(&self, value: &Value) -> Option<bool> {
        value.as_bool()
    }
}

/// One of these words, each with what it stands for.
#[derive(Clone, Copy)]
pub struct Words<'a, T> {
    pub words: &'a [(&'a str, T)],
}

impl<T: Copy + Drop> Column for Words<'_, T> {
    type Out = T;

    ghost use Rattle.std.specs.Prelude.{map};
    ghost use Rattle.config_text.specs.Column.{one_of};

    ghost reads = { λ c. one_of (map (λ w. (w.0.now, w.1)) c.words.now) };

    fn read(&self, value: &Value) -> Option<T> {
        let text = value.as_str()?;
        for word in self.words {
            if text == word.0 {
                return Some(word.1);
            }
        }
        None
    }
}

/// A MAC address.
#[derive(Clone, Copy)]
pub struct AnyMac;

impl Column for AnyMac {
    type Out = Mac;

    ghost use Rattle.config_text.specs.Column.{any_mac};

    ghost reads = { λ _. any_mac };

    fn read(&self, value: &Value) -> Option<Mac> {
        mac_of(value.as_str()?)
    }
}

/// A MAC address that is no group's.
#[derive(Clone, Copy)]
pub struct IndividualMac;

impl Column for IndividualMac {
    type Out = Mac;

    ghost use Rattle.config_text.specs.Column.{individual_mac};

    ghost reads = { λ _. individual_mac };

    fn read(&self, value: &Value) -> Option<Mac> {
        let mac = mac_of(value.as_str()?)?;
        if mac.is_group() { None } else { Some(mac) }
    }
}

/// An address of either family.
#[derive(Clone, Copy)]
pub struct AnyAddr;

impl Column for AnyAddr {
    type Out = Addr;

    ghost use Rattle.config_text.specs.Column.{any_addr};

    ghost reads = { λ _. any_addr };

    fn read(&self, value: &Value) -> Option<Addr> {
        addr_of(value.as_str()?)
    }
}

/// Whether one endpoint can have the address: it is usable, and no group's.
fn is_endpoint(addr: Addr) -> bool
    ensures { result ≡ is_endpoint addr }
{
    addr.is_usable() && !addr.is_group()
}

/// The address of one endpoint, of either family.
#[derive(Clone, Copy)]
pub struct EndpointAddr;

impl Column for EndpointAddr {
    type Out = Addr;

    ghost use Rattle.config_text.specs.Column.{endpoint_addr};

    ghost reads = { λ _. endpoint_addr };

    fn read(&self, value: &Value) -> Option<Addr> {
        let addr = addr_of(value.as_str()?)?;
        if is_endpoint(addr) { Some(addr) } else { None }
    }
}

/// An IPv4 address that an endpoint can have for its own.
#[derive(Clone, Copy)]
pub struct OwnIp4;

impl Column for OwnIp4 {
    type Out = [u8; 4];

    ghost use Rattle.config_text.specs.Column.{own_ip4};

    ghost reads = { λ _. own_ip4 };

    fn read(&self, value: &Value) -> Option<[u8; 4]> {
        let octets = ip4_of(value.as_str()?)?;
        if is_endpoint(Addr::V4(octets)) {
            Some(octets)
        } else {
            None
        }
    }
}

/// An IPv6 address that an endpoint can have for its own.
#[derive(Clone, Copy)]
pub struct OwnIp6;

impl Column for OwnIp6 {
    type Out = [u8; 16];

    ghost use Rattle.config_text.specs.Column.{own_ip6};

    ghost reads = { λ _. own_ip6 };

    fn read(&self, value: &Value) -> Option<[u8; 16]> {
        let octets = ip6_of(value.as_str()?)?;
        if is_endpoint(Addr::V6(octets)) {
            Some(octets)
        } else {
            None
        }
    }
}
