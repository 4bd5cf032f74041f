//! Places in a decision line.
ghost use Rattle.std.specs.Prelude.{◌≡◌, ◌≤◌, ◌+◌, ◌*◌, ◌++◌, length};
ghost use Rattle.filter_db.specs.declared.place.Place.TheVariants.{Remote};
ghost use Rattle.endpoint_core.specs.Text.{place_text, kind_text, addr_text, ip4_text, ip6_text, grouped, hex_octet};

use crate::line::Line;
use filter_db::Place;
use wire::ip_udp::{Addr, Tunnel};

impl Line {
    /// Puts a place: the number of a local port, or the address of a remote endpoint, behind the kind of its tunnel where
    /// the segment has two.
    pub fn put_place(&mut self, two_tunnels: bool, place: Place)
        requires room { length self.old + 55 ≤ 65536 }
        ensures text { self.new ≡ self.old ++ place_text two_tunnels place }
        ensures len { length self.new ≤ length self.old + 55 }
    {
        match place {
            Place::Local(port) => {
                self.put_octet(b'p');
                self.put_small(port);
            }
            Place::Remote(kind, addr) => self.put_remote_place(two_tunnels, kind, addr),
        }
    }

    /// Puts the address of a remote endpoint, behind the kind of its tunnel where the segment has two.
    #[inline(always)]
    pub(crate) fn put_remote_place(&mut self, two_tunnels: bool, kind: Tunnel, addr: Addr)
        requires room { length self.old + 55 ≤ 65536 }
        ensures text { self.new ≡ self.old ++ place_text two_tunnels (Remote kind addr) }
        ensures len { length self.new ≤ length self.old + 55 }
    {
        if two_tunnels {
            self.put_kind(kind);
        }
        self.put_addr(addr);
    }

    fn put_kind(&mut self, kind: Tunnel)
        requires room { length self.old + 7 ≤ 65536 }
        ensures text { self.new ≡ self.old ++ kind_text kind }
        ensures len { length self.new ≤ length self.old + 7 }
    {
        match kind {
            Tunnel::Vxlan => self.put_text(b"vxlan:"),
            Tunnel::Geneve => self.put_text(b"geneve:"),
        }
    }

    /// Puts an address: four decimals, or eight groups of four hexadecimal digits.
    #[inline(always)]
    fn put_addr(&mut self, addr: Addr)
        requires room { length self.old + 48 ≤ 65536 }
        ensures text { self.new ≡ self.old ++ addr_text addr }
        ensures len { length self.new ≤ length self.old + 48 }
    {
        match addr {
            Addr::V4(octets) => self.put_ip4(octets),
            Addr::V6(octets) => self.put_ip6(&octets),
        }
    }

    #[inline(always)]
    fn put_ip4(&mut self, octets: [u8; 4])
        requires room { length self.old + 15 ≤ 65536 }
        ensures text { self.new ≡ self.old ++ ip4_text octets }
        ensures len { length self.new ≤ length self.old + 15 }
    {
        self.put_small(octets[0]);
        self.put_octet(b'.');
        self.put_small(octets[1]);
        self.put_octet(b'.');
        self.put_small(octets[2]);
        self.put_octet(b'.');
        self.put_small(octets[3]);
    }

    fn put_ip6(&mut self, octets: &[u8])
        requires room { length self.old + 3 * length octets.now ≤ 65536 }
        ensures text { self.new ≡ self.old ++ ip6_text octets.now }
        ensures len { length self.new ≤ length self.old + 3 * length octets.now }
    {
        if let [a, b, rest @ ..] = octets {
            self.put_group(*a, *b);
            self.put_groups(rest);
        }
    }

    /// Puts groups of two octets, each behind a colon.
    fn put_groups(&mut self, octets: &[u8])
        requires room { length self.old + 3 * length octets.now ≤ 65536 }
        ensures text { self.new ≡ self.old ++ grouped octets.now }
        ensures len { length self.new ≤ length self.old + 3 * length octets.now }
    {
        let mut rest = octets;
        while let [a, b, behind @ ..] = rest {
            self.put_octet(b':');
            self.put_group(*a, *b);
            rest = behind;
        }
    }

    /// Puts two octets, two hexadecimal digits each.
    #[inline]
    fn put_group(&mut self, a: u8, b: u8)
        requires room { length self.old + 4 ≤ 65536 }
        ensures text { self.new ≡ self.old ++ (hex_octet a ++ hex_octet b) }
        ensures len { length self.new ≡ length self.old + 4 }
    {
        self.put_hex(a);
        self.put_hex(b);
    }
}
