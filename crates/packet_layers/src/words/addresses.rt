//! Octets in hexadecimal, and addresses, in lines.
ghost use Rattle.std.specs.Prelude.{◌≡◌, ◌<◌, ◌≤◌, ◌+◌, ◌*◌, ◌/◌, ◌%◌, ◌++◌, length};
ghost use Rattle.std.specs.Char.{digit_char};
ghost use Rattle.std.specs.Net.Text.{hex, groups_text, longest_zero_run, hex_groups_text};
ghost use Rattle.packet_layers.specs.Text.{hex_text, mac_text, ip4_text, ip6_text};

use crate::words::lines::Lines;
use std::net::Ipv6Addr;

impl Lines {
    /// Puts two octets in hexadecimal, as `0x0806`.
    #[inline(always)]
    pub(crate) fn put_hex(&mut self, octets: [u8; 2])
        requires room { length self.old + 6 ≤ 8192 }
        ensures text { self.new ≡ self.old ++ hex_text octets }
        ensures len { length self.new ≡ length self.old + 6 }
    {
        let [a, b] = octets;
        self.put_text(&[b'0', b'x', high(a), low(a), high(b), low(b)]);
    }

    /// Puts a MAC address, as `02:00:00:00:aa:01`.
    #[inline(always)]
    pub(crate) fn put_mac(&mut self, mac: [u8; 6])
        requires room { length self.old + 17 ≤ 8192 }
        ensures text { self.new ≡ self.old ++ mac_text mac }
        ensures len { length self.new ≡ length self.old + 17 }
    {
        let [a, b, c, d, e, f] = mac;
        self.put_text(&[
            high(a),
            low(a),
            b':',
            high(b),
            low(b),
            b':',
            high(c),
            low(c),
            b':',
            high(d),
            low(d),
            b':',
            high(e),
            low(e),
            b':',
            high(f),
            low(f),
        ]);
    }

    /// Puts an IPv4 address.
    pub(crate) fn put_ip4(&mut self, address: [u8; 4])
        requires room { length self.old + 40 ≤ 8192 }
        ensures text { self.new ≡ self.old ++ ip4_text address }
        ensures len { length self.new ≤ length self.old + 15 }
    {
        let [a, b, c, d] = address;
        self.put_number(u64::from(a));
        self.put_text(b".");
        self.put_number(u64::from(b));
        self.put_text(b".");
        self.put_number(u64::from(c));
        self.put_text(b".");
        self.put_number(u64::from(d));
    }

    /// Puts an IPv6 address.
    pub(crate) fn put_ip6(&mut self, address: [u8; 16])
        requires room { length self.old + 50 ≤ 8192 }
        ensures text { self.new ≡ self.old ++ ip6_text address }
        ensures len { length self.new ≤ length self.old + 40 }
    {
        let address = Ipv6Addr::from_octets(address);
        match address.to_ipv4_mapped() {
            Some(mapped) => {
                self.put_text(b"::ffff:");
                self.put_ip4(mapped.octets());
            }
            None => self.put_segments(&address.segments()),
        }
    }

    /// Puts the segments of an IPv6 address, with `::` in place of the longest run of zeros.
    fn put_segments(&mut self, segments: &[u16])
        requires room { length self.old + 5 * length segments.now + 2 ≤ 8192 }
        ensures text { self.new ≡ self.old ++ hex_groups_text segments.now }
        ensures len { length self.new ≤ length self.old + 5 * length segments.now }
    {
        let run = longest_zero_run(segments);
        if run.len > 1 {
            self.put_groups(&segments[..run.start]);
            self.put_text(b"::");
            self.put_groups(&segments[run.start + run.len..]);
        } else {
            self.put_groups(segments);
        }
    }

    /// Puts segments with colons between them.
    fn put_groups(&mut self, segments: &[u16])
        requires room { length self.old + 5 * length segments.now ≤ 8192 }
        ensures text { self.new ≡ self.old ++ groups_text segments.now }
        ensures len { length self.new ≤ length self.old + 5 * length segments.now }
    {
        if let [first, others @ ..] = segments {
            self.put_segment(*first);
            for segment in others {
                self.put_text(b":");
                self.put_segment(*segment);
            }
        }
    }

    /// Puts a segment in hexadecimal, without leading zeros.
    #[tactic(auto, unfolding(std::specs::Net::Text::hex))]
    fn put_segment(&mut self, segment: u16)
        requires room { length self.old + 4 ≤ 8192 }
        ensures text { self.new ≡ self.old ++ hex segment }
        ensures len { length self.new ≤ length self.old + 4 }
    {
        let a = digit((segment / 0x1000) as u8);
        let b = digit((segment / 0x100 % 16) as u8);
        let c = digit((segment / 0x10 % 16) as u8);
        let d = digit((segment % 16) as u8);
        if segment >= 0x1000 {
            self.put_text(&[a, b, c, d]);
        } else if segment >= 0x100 {
            self.put_text(&[b, c, d]);
        } else if segment >= 0x10 {
            self.put_text(&[c, d]);
        } else {
            self.put_text(&[d]);
        }
    }
}

/// Neighbouring segments.
#[derive(Clone, Copy)]
struct Run {
    start: usize,
    len: usize,
}

/// The longest run of zeros, and of two such runs the first.
fn longest_zero_run(segments: &[u16]) -> Run
    ensures start { result.start ≡ (longest_zero_run segments.now).0 }
    ensures len { result.len ≡ (longest_zero_run segments.now).1 }
    ensures within { result.start + result.len ≤ length segments.now }
{
    let mut at = segments.len();
    let mut longest = Run { start: at, len: 0 };
    let mut zeros = 0;
    while at > 0 {
        at -= 1;
        zeros = if segments[at] == 0 { zeros + 1 } else { 0 };
        if zeros >= longest.len {
            longest = Run {
                start: at,
                len: zeros,
            };
        }
    }
    longest
}

/// The high hexadecimal digit of an octet.
#[inline(always)]
fn high(octet: u8) -> u8
    ensures { result ≡ digit_char (octet / 16) }
{
    digit(octet / 16)
}

/// The low hexadecimal digit of an octet.
#[inline(always)]
fn low(octet: u8) -> u8
    ensures { result ≡ digit_char (octet % 16) }
{
    digit(octet % 16)
}

#[inline(always)]
fn digit(value: u8) -> u8
    requires { value < 16 }
    ensures { result ≡ digit_char value }
{
    if value < 10 {
        b'0' + value
    } else {
        b'a' - 10 + value
    }
}
