//! The result in a decision line: outcomes, a drop, or the reply to a change.
ghost use Rattle.std.specs.Prelude.{◌≡◌, ◌≤◌, ◌+◌, ◌++◌, length, codes, decimal};
ghost use Rattle.wire.specs.First.{fault_of};
ghost use Rattle.wire.specs.Reason.{name_of, number_of};
ghost use Rattle.filter_db.specs.declared.place.Place.TheVariants.{Remote};
ghost use Rattle.endpoint_core.specs.Text.{place_text};
ghost use Rattle.decision_lines.specs.Lines.{reply_text};
ghost use Rattle.decision_lines.specs.Outcomes.{count_text, gap};

use crate::line::Line;
use endpoint_core::ChangeFault;
use filter_db::Place;
use wire::ether::Reason;
use wire::ip_udp::{Addr, Tunnel};

impl Line {
    /// Puts what came of an outlet: its place, and the number of octets that left or the name of the reason why none did;
    /// behind a space where it isn't the first. The kind of a remote's tunnel is told where the segment has two.
    pub fn put_counted(
        &mut self,
        is_first: bool,
        two_tunnels: bool,
        place: Place,
        count: Result<usize, Reason>,
    )
        requires room { length self.old + 77 ≤ 65536 }
        ensures text { self.new ≡ self.old ++ (gap is_first ++ (place_text two_tunnels place ++ count_text count)) }
        ensures len { length self.new ≤ length self.old + 77 }
    {
        if !is_first {
            self.put_octet(b' ');
        }
        self.put_place(two_tunnels, place);
        self.put_count(count);
    }

    /// The same of a local port where so many octets left.
    #[inline(always)]
    pub fn put_local(&mut self, is_first: bool, port: u8, count: usize)
        requires room { length self.old + 77 ≤ 65536 }
        ensures text { self.new ≡ self.old ++ (gap is_first ++ ((codes "p" ++ decimal port) ++ count_text (Ok count))) }
        ensures len { length self.new ≤ length self.old + 77 }
    {
        if !is_first {
            self.put_octet(b' ');
        }
        self.put_octet(b'p');
        self.put_small(port);
        self.put_octet(b'=');
        self.put_number(count as u64);
    }

    /// The same of a remote endpoint where so many octets left, or none did for a reason.
    #[inline(always)]
    pub fn put_remote(
        &mut self,
        is_first: bool,
        two_tunnels: bool,
        kind: Tunnel,
        addr: Addr,
        count: Result<usize, Reason>,
    )
        requires room { length self.old + 77 ≤ 65536 }
        ensures text { self.new ≡ self.old ++ (gap is_first ++ (place_text two_tunnels (Remote kind addr) ++ count_text count)) }
        ensures len { length self.new ≤ length self.old + 77 }
    {
        if !is_first {
            self.put_octet(b' ');
        }
        self.put_remote_place(two_tunnels, kind, addr);
        self.put_count(count);
    }

    /// Puts that a frame or packet is dropped, and why.
    #[inline(always)]
    pub fn put_drop(&mut self, reason: Reason)
        requires room { length self.old + 24 ≤ 65536 }
        ensures text { self.new ≡ self.old ++ (codes "drop " ++ decimal (number_of reason) ++ codes " " ++ name_of reason) }
        ensures len { length self.new ≤ length self.old + 24 }
    {
        self.put_text(b"drop ");
        self.put_small(reason.number());
        self.put_octet(b' ');
        self.put_text(reason.name().as_bytes());
    }

    /// Puts what a change was answered.
    pub fn put_reply(&mut self, reply: Result<(), ChangeFault>)
        requires room { length self.old + 24 ≤ 65536 }
        ensures text { self.new ≡ self.old ++ reply_text (fault_of reply) }
        ensures len { length self.new ≤ length self.old + 24 }
    {
        match reply {
            Ok(()) => self.put_text(b"done"),
            Err(fault) => {
                self.put_text(b"refused ");
                self.put_small(fault.number());
                self.put_octet(b' ');
                self.put_text(fault.name().as_bytes());
            }
        }
    }

    /// Puts how many octets were sent, or the name of the reason why none were.
    #[inline(always)]
    fn put_count(&mut self, count: Result<usize, Reason>)
        requires room { length self.old + 21 ≤ 65536 }
        ensures text { self.new ≡ self.old ++ count_text count }
        ensures len { length self.new ≤ length self.old + 21 }
    {
        match count {
            Ok(count) => {
                self.put_octet(b'=');
                self.put_number(count as u64);
            }
            Err(reason) => {
                self.put_octet(b'!');
                self.put_text(reason.name().as_bytes());
            }
        }
    }
}
