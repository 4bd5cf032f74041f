//! The values of headers in lines.
ghost use Rattle.std.specs.Prelude.{◌≡◌, ◌≤◌, ◌+◌, ◌++◌, length, codes, decimal};
ghost use Rattle.wire.specs.Octets.{field};
ghost use Rattle.packet_layers.specs.Values.{values_of, ether_values, tag_values, kind_values};
ghost use Rattle.packet_layers.specs.Values.{fragment_values, ip4_ends, ip4_fields, ip4_values, ip6_ends};
ghost use Rattle.packet_layers.specs.Values.{ip6_fields, ip6_values, udp_values, vxlan_values, geneve_values};

use crate::HeadKind;
use crate::words::lines::Lines;
use crate::words::spelling::array_at;
use crate::words::values::{OFFSETS, least};
use byteorder::{BigEndian, ByteOrder};

impl Lines {
    /// Puts the values of a header of a kind, as [`put_values`](crate::words::put_values) puts them behind a text.
    pub fn put_values(&mut self, kind: HeadKind, octets: &[u8])
        requires room { length self.old + 160 ≤ 8192 }
        ensures text { self.new ≡ self.old ++ values_of kind octets.now }
        ensures len { length self.new ≤ length self.old + 140 }
    {
        if octets.len() < least(kind) {
            return;
        }
        match kind {
            HeadKind::Ether => self.put_ether(octets),
            HeadKind::Tag => self.put_tag(octets),
            HeadKind::Kind => self.put_kind(octets),
            HeadKind::Ip4 => self.put_ip4_head(octets),
            HeadKind::Ip6 => self.put_ip6_head(octets),
            HeadKind::Udp => self.put_udp(octets),
            HeadKind::Vxlan => self.put_vxlan(octets),
            HeadKind::Geneve => self.put_geneve(octets),
        }
    }

    fn put_ether(&mut self, head: &[u8])
        requires whole { 12 ≤ length head.now }
        requires room { length self.old + 160 ≤ 8192 }
        ensures text { self.new ≡ self.old ++ ether_values head.now }
        ensures len { length self.new ≤ length self.old + 140 }
    {
        self.put_text(b" ");
        self.put_mac(array_at(head, 6));
        self.put_text(b" > ");
        self.put_mac(array_at(head, 0));
    }

    fn put_tag(&mut self, head: &[u8])
        requires whole { 4 ≤ length head.now }
        requires room { length self.old + 160 ≤ 8192 }
        ensures text { self.new ≡ self.old ++ tag_values head.now }
        ensures len { length self.new ≤ length self.old + 140 }
    {
        let control = field_at(head, 2);
        self.put_text(b" ");
        self.put_hex(array_at(head, 0));
        self.put_field(b" vid ", control % 4096);
        self.put_field(b" pcp ", control / 8192);
        self.put_field(b" dei ", control / 4096 % 2);
    }

    fn put_kind(&mut self, head: &[u8])
        requires whole { 2 ≤ length head.now }
        requires room { length self.old + 160 ≤ 8192 }
        ensures text { self.new ≡ self.old ++ kind_values head.now }
        ensures len { length self.new ≤ length self.old + 140 }
    {
        self.put_text(b" ");
        self.put_hex(array_at(head, 0));
    }

    fn put_ip4_head(&mut self, head: &[u8])
        requires whole { 20 ≤ length head.now }
        requires room { length self.old + 160 ≤ 8192 }
        ensures text { self.new ≡ self.old ++ ip4_values head.now }
        ensures len { length self.new ≤ length self.old + 140 }
    {
        self.put_ip4_ends(head);
        self.put_ip4_fields(head);
    }

    /// Puts from whom to whom, and the time to live.
    #[inline(always)]
    fn put_ip4_ends(&mut self, head: &[u8])
        requires whole { 20 ≤ length head.now }
        requires room { length self.old + 80 ≤ 8192 }
        ensures text { self.new ≡ self.old ++ ip4_ends head.now }
        ensures len { length self.new ≤ length self.old + 60 }
    {
        self.put_text(b" ");
        self.put_ip4(array_at(head, 12));
        self.put_text(b" > ");
        self.put_ip4(array_at(head, 16));
        self.put_field(b" ttl ", u16::from(head[8]));
    }

    /// Puts the length and the protocol, and of a fragment where it belongs.
    #[inline(always)]
    fn put_ip4_fields(&mut self, head: &[u8])
        requires whole { 20 ≤ length head.now }
        requires room { length self.old + 90 ≤ 8192 }
        ensures text { self.new ≡ self.old ++ ip4_fields head.now }
        ensures len { length self.new ≤ length self.old + 70 }
    {
        self.put_field(b" length ", field_at(head, 2));
        self.put_field(b" protocol ", u16::from(head[9]));
        self.put_fragment(head);
    }

    /// Puts where a fragment belongs; nothing of a whole packet.
    fn put_fragment(&mut self, head: &[u8])
        requires whole { 20 ≤ length head.now }
        requires room { length self.old + 50 ≤ 8192 }
        ensures text { self.new ≡ self.old ++ fragment_values head.now }
        ensures len { length self.new ≤ length self.old + 32 }
    {
        let flags_and_offset = field_at(head, 6);
        let more = flags_and_offset / OFFSETS % 2;
        let offset = flags_and_offset % OFFSETS;
        if more == 0 && offset == 0 {
            return;
        }
        self.put_field(b" offset ", offset * 8);
        self.put_field(b" more ", more);
    }

    fn put_ip6_head(&mut self, head: &[u8])
        requires whole { 40 ≤ length head.now }
        requires room { length self.old + 160 ≤ 8192 }
        ensures text { self.new ≡ self.old ++ ip6_values head.now }
        ensures len { length self.new ≤ length self.old + 140 }
    {
        self.put_ip6_ends(head);
        self.put_ip6_fields(head);
    }

    /// Puts from whom to whom, and the hop limit.
    #[inline(always)]
    fn put_ip6_ends(&mut self, head: &[u8])
        requires whole { 40 ≤ length head.now }
        requires room { length self.old + 120 ≤ 8192 }
        ensures text { self.new ≡ self.old ++ ip6_ends head.now }
        ensures len { length self.new ≤ length self.old + 100 }
    {
        self.put_text(b" ");
        self.put_ip6(array_at(head, 8));
        self.put_text(b" > ");
        self.put_ip6(array_at(head, 24));
        self.put_field(b" hop-limit ", u16::from(head[7]));
    }

    /// Puts the length and the next header.
    #[inline(always)]
    fn put_ip6_fields(&mut self, head: &[u8])
        requires whole { 40 ≤ length head.now }
        requires room { length self.old + 50 ≤ 8192 }
        ensures text { self.new ≡ self.old ++ ip6_fields head.now }
        ensures len { length self.new ≤ length self.old + 32 }
    {
        self.put_field(b" length ", field_at(head, 4));
        self.put_field(b" next-header ", u16::from(head[6]));
    }

    fn put_udp(&mut self, head: &[u8])
        requires whole { 8 ≤ length head.now }
        requires room { length self.old + 160 ≤ 8192 }
        ensures text { self.new ≡ self.old ++ udp_values head.now }
        ensures len { length self.new ≤ length self.old + 140 }
    {
        self.put_field(b" ", field_at(head, 0));
        self.put_field(b" > ", field_at(head, 2));
        self.put_field(b" length ", field_at(head, 4));
        self.put_text(b" checksum ");
        self.put_hex(array_at(head, 6));
    }

    fn put_vxlan(&mut self, head: &[u8])
        requires whole { 8 ≤ length head.now }
        requires room { length self.old + 160 ≤ 8192 }
        ensures text { self.new ≡ self.old ++ vxlan_values head.now }
        ensures len { length self.new ≤ length self.old + 140 }
    {
        self.put_vni(BigEndian::read_u24(&head[4..]));
    }

    fn put_geneve(&mut self, head: &[u8])
        requires whole { 8 ≤ length head.now }
        requires room { length self.old + 160 ≤ 8192 }
        ensures text { self.new ≡ self.old ++ geneve_values head.now }
        ensures len { length self.new ≤ length self.old + 140 }
    {
        self.put_vni(BigEndian::read_u24(&head[4..]));
        self.put_field(b" options ", u16::from(4 * (head[0] % 64)));
    }

    /// Puts the identifier of a virtual network.
    #[inline(always)]
    fn put_vni(&mut self, vni: u32)
        requires room { length self.old + 25 ≤ 8192 }
        ensures text { self.new ≡ self.old ++ (codes " vni " ++ decimal vni) }
        ensures len { length self.new ≤ length self.old + 25 }
    {
        self.put_text(b" vni ");
        self.put_number(u64::from(vni));
    }

    /// Puts a word and a number.
    #[inline(always)]
    fn put_field(&mut self, word: &[u8], number: u16)
        requires room { length self.old + length word.now + 20 ≤ 8192 }
        ensures text { self.new ≡ self.old ++ (word.now ++ decimal number) }
        ensures len { length self.new ≤ length self.old + length word.now + 5 }
    {
        self.put_text(word);
        self.put_number(u64::from(number));
    }
}

/// The two octets that stand at a place, as a number.
#[inline(always)]
fn field_at(head: &[u8], place: usize) -> u16
    requires { place + 2 ≤ length head.now }
    ensures { result ≡ field place 2 head.now }
{
    BigEndian::read_u16(&head[place..])
}
