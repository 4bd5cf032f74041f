//! An output of the blocks of events.
ghost use Rattle.std.specs.Prelude.{◌≡◌, ◌≤◌, IfOk, IsSome, IsTrue, None, Ok, false, length, map};
ghost use Rattle.std.specs.List.{flat_map, list_all};
ghost use Rattle.wire.specs.First.{fault_of};
ghost use Rattle.endpoint_core.specs.Decision.{refused_as};
ghost use Rattle.endpoint_core.specs.Kept.{state_of};
ghost use Rattle.endpoint_core.specs.Settings.{segment_at};
ghost use Rattle.endpoint_core.specs.StateStep.{can_leave};
ghost use Rattle.endpoint_core.specs.Step.{Decided, Replied, by_verdict, has_two_tunnels, sent_at};
ghost use Rattle.pcapng_input.specs.BlockText.{block_text};
ghost use Rattle.decision_objects.specs.Writing.{Tells};
ghost use Rattle.run_view.specs.Blocks.{Noted, comment_of, head_text, interface_block, item_text, port_blocks, text_of};
ghost use Rattle.run_view.specs.Told.{told_text};
ghost use Rattle.run_view.specs.View.{came_item, cut_item, interface_at, items_of, left_items};

use crate::blocks::{
    INTERFACE_DESCRIPTION, JOURNAL_EXPORT, SECTION_HEADER, put_interface, put_journal, put_section,
};
use crate::leaving::gather;
use crate::packet::{Packet, Remark};
use crate::record::Record;
use crate::seen::Seen;
use crate::teller::Teller;
use crate::texts::{comment, put_cut, put_drop, put_left, put_reply, put_sent};
use decision_lines::{Counter, Line};
use encapsulate::Head;
use endpoint_core::{Arrival, ChangeFault, Endpoint};
use filter_db::Place;
use pcap::stream::Output;
use std::alloc::{AllocError, Global};
use std::marker::Model;
use timeline::Cut;
use wire::ether::Refused;

/// The directions of packets.
const INBOUND: u32 = 1;

const OUTBOUND: u32 = 2;

/// An output of the blocks of events, with what they are put together in, seen by contracts as what was told to the output.
#[derive(Drop)]
pub(crate) struct ViewOutput<W: Output> {
    teller: Teller<W>,
    /// A comment or a message.
    line: Line,
    /// What stands behind a packet's octets, or the body of another block.
    out: Line,
    /// The number of the latest event that was told.
    number: Counter,
    /// What leaves at a place, and its outer head.
    leaving: Record,
    head: Head,
}

impl<W: Output> Model for ViewOutput<W> {
    ghost use Rattle.decision_objects.specs.Writing.{Told};

    ghost Value = { Told };

    ghost view = { λ o. o.teller };
}

impl<W: Output> ViewOutput<W> {
    /// One that goes on where an output stands. `AllocError`: there was no room for what leaves.
    pub(crate) fn new(alloc: Global, output: W) -> Result<ViewOutput<W>, AllocError>
    where
        W: Drop,
        ensures { IfOk result (λ made. made ≡ record { written = W.written output; failures = W.failures output; is_failed = false }) }
    {
        let leaving = Record::new(alloc)?;
        Ok(ViewOutput {
            teller: Teller::new(output),
            line: Line::new(),
            out: Line::new(),
            number: Counter::new(),
            leaving,
            head: Head::new(),
        })
    }

    /// Whether a write failed.
    pub(crate) fn is_failed(&self) -> bool
        ensures { result ≡ self.now.is_failed }
    {
        self.teller.is_failed()
    }

    /// The output.
    pub(crate) fn into_output(self) -> W
        ensures written { W.written result ≡ self.written }
        ensures failures { W.failures result ≡ self.failures }
    {
        let ViewOutput { teller, .. } = self;
        teller.into_output()
    }

    /// Writes the head of a view of so many ports.
    pub(crate) fn write_head(&mut self, ports: u8)
        ensures { Tells self.old self.new (head_text ports) }
    {
        tell_head(&mut self.teller, &mut self.line, &mut self.out, ports);
    }

    /// Writes the blocks of a frame or a packet that was seen and is dropped.
    #[inline]
    pub(crate) fn write_drop(&mut self, ports: u8, seen: &Seen, refused: Refused)
        ensures { Tells self.old self.new (text_of (items_of ports seen.now (Decided (refused_as refused)))) }
    {
        put_drop(&mut self.line, &mut self.number, &seen.origin, refused);
        tell_came(&mut self.teller, &mut self.out, &self.line, seen);
    }

    /// Writes the block of a change that was seen, with what it was answered.
    pub(crate) fn write_reply(&mut self, ports: u8, seen: &Seen, reply: Result<(), ChangeFault>)
        ensures { Tells self.old self.new (text_of (items_of ports seen.now (Replied (fault_of reply)))) }
    {
        let origin = &seen.origin;
        put_reply(&mut self.line, &mut self.number, origin, seen.named, reply);
        tell_entry(&mut self.teller, &mut self.out, &self.line, origin.moment);
    }

    /// Writes the block of a capture that is cut, at a moment.
    pub(crate) fn write_cut(&mut self, moment: u64, cut: &Cut)
        ensures { Tells self.old self.new (item_text (cut_item moment cut.now)) }
    {
        put_cut(&mut self.line, cut);
        tell_entry(&mut self.teller, &mut self.out, &self.line, moment);
    }

    /// Writes the blocks of a frame or a packet that was seen and leaves at these places.
    #[inline]
    pub(crate) fn write_sent(
        &mut self,
        ports: u8,
        seen: &Seen,
        endpoint: &Endpoint,
        came: &Arrival,
        places: &[Place],
    )
        requires there { IsSome (segment_at (state_of endpoint.now).bridges.settings came.now.vid) }
        requires leave { IsTrue (list_all (can_leave (state_of endpoint.now).bridges.settings came.now.vid) places.now) }
        requires short { length came.now.frame.body ≤ 65549 }
        ensures { let S = (state_of endpoint.now).bridges.settings in
            Tells self.old self.new (text_of (items_of ports seen.now (Decided (by_verdict S came.now (Ok places.now))))) }
    {
        self.write_came(seen, endpoint, came, places);
        self.write_outcomes(ports, seen, endpoint, came, places);
    }

    /// Writes the block of what came, where it leaves at these places.
    #[inline]
    fn write_came(&mut self, seen: &Seen, endpoint: &Endpoint, came: &Arrival, places: &[Place])
        requires there { IsSome (segment_at (state_of endpoint.now).bridges.settings came.now.vid) }
        requires leave { IsTrue (list_all (can_leave (state_of endpoint.now).bridges.settings came.now.vid) places.now) }
        ensures { let S = (state_of endpoint.now).bridges.settings in
            Tells self.old self.new (item_text (came_item seen.now
            (told_text seen.now.origin None (Decided (by_verdict S came.now (Ok places.now)))))) }
    {
        let origin = &seen.origin;
        put_sent(
            &mut self.line,
            &mut self.number,
            origin,
            endpoint,
            came,
            places,
        );
        tell_came(&mut self.teller, &mut self.out, &self.line, seen);
    }

    /// Writes the blocks of what leaves at each of these places.
    #[inline]
    fn write_outcomes(
        &mut self,
        ports: u8,
        seen: &Seen,
        endpoint: &Endpoint,
        came: &Arrival,
        places: &[Place],
    )
        requires there { IsSome (segment_at (state_of endpoint.now).bridges.settings came.now.vid) }
        requires leave { IsTrue (list_all (can_leave (state_of endpoint.now).bridges.settings came.now.vid) places.now) }
        requires short { length came.now.frame.body ≤ 65549 }
        ensures { let S = (state_of endpoint.now).bridges.settings in
            Tells self.old self.new (text_of (flat_map (left_items ports seen.now (has_two_tunnels S.overlay came.now.vid))
            (map (sent_at S came.now.vid came.now.frame) places.now))) }
    {
        for place in places {
            self.write_left(ports, seen, endpoint, came, *place);
        }
    }

    /// Writes the block of what leaves at a place, if something does.
    #[inline]
    fn write_left(
        &mut self,
        ports: u8,
        seen: &Seen,
        endpoint: &Endpoint,
        came: &Arrival,
        place: Place,
    )
        requires there { IsSome (segment_at (state_of endpoint.now).bridges.settings came.now.vid) }
        requires leave { IsTrue (can_leave (state_of endpoint.now).bridges.settings came.now.vid place) }
        requires short { length came.now.frame.body ≤ 65549 }
        ensures { let S = (state_of endpoint.now).bridges.settings in
            Tells self.old self.new (text_of (left_items ports seen.now (has_two_tunnels S.overlay came.now.vid)
            (sent_at S came.now.vid came.now.frame place))) }
    {
        if gather(&mut self.leaving, &mut self.head, endpoint, came, place).is_err() {
            return;
        }
        let event = seen.origin.event;
        put_left(
            &mut self.line,
            &mut self.number,
            event,
            endpoint,
            came,
            place,
        );
        let octets = self.leaving.octets();
        let packet = Packet {
            interface: interface_at(ports, place),
            moment: seen.origin.moment,
            original: octets.len() as u32,
            octets,
        };
        let remark = Remark {
            comment: comment(&self.line),
            direction: OUTBOUND,
            event,
        };
        self.teller.tell_packet(&packet, &remark, &mut self.out);
    }
}

/// The interface of a place where a frame leaves.
#[inline]
fn interface_at(ports: u8, place: Place) -> u32
    ensures { result ≡ interface_at ports place }
{
    match place {
        Place::Local(port) => u32::from(port.saturating_sub(1)),
        Place::Remote(..) => u32::from(ports),
    }
}

/// Tells what came, as it was seen, with what stands in a line.
#[inline]
fn tell_came<W: Output>(teller: &mut Teller<W>, out: &mut Line, line: &Line, seen: &Seen)
    ensures { Tells teller.old teller.new (item_text (came_item seen.now line.now)) }
{
    let packet = Packet {
        interface: seen.interface,
        moment: seen.origin.moment,
        original: seen.original,
        octets: seen.octets.octets(),
    };
    let remark = Remark {
        comment: comment(line),
        direction: INBOUND,
        event: seen.origin.event,
    };
    teller.tell_packet(&packet, &remark, out);
}

/// Tells what stands in a line as an entry of a journal.
fn tell_entry<W: Output>(teller: &mut Teller<W>, out: &mut Line, line: &Line, moment: u64)
    ensures { Tells teller.old teller.new (item_text (Noted moment (comment_of line.now))) }
{
    put_journal(out, moment, comment(line));
    teller.tell_block(JOURNAL_EXPORT, out);
}

/// Tells the head of a view of so many ports.
fn tell_head<W: Output>(teller: &mut Teller<W>, line: &mut Line, out: &mut Line, ports: u8)
    ensures { Tells teller.old teller.new (head_text ports) }
{
    put_section(out);
    teller.tell_block(SECTION_HEADER, out);
    tell_ports(teller, line, out, ports);
    tell_interface(teller, out, b"u");
}

/// Tells the interfaces of so many ports.
fn tell_ports<W: Output>(teller: &mut Teller<W>, line: &mut Line, out: &mut Line, ports: u8)
    ensures { Tells teller.old teller.new (flat_map block_text (port_blocks 1 ports)) }
{
    for i in 0..ports {
        line.clear();
        line.put_octet(b'p');
        line.put_small(i + 1);
        tell_interface(teller, out, line.text());
    }
}

/// Tells an interface of this name.
fn tell_interface<W: Output>(teller: &mut Teller<W>, out: &mut Line, name: &[u8])
    requires { length name.now ≤ 4 }
    ensures { Tells teller.old teller.new (block_text (interface_block name.now)) }
{
    put_interface(out, name);
    teller.tell_block(INTERFACE_DESCRIPTION, out);
}
