//! What passes by tunnels.
ghost use Rattle.std.specs.Prelude.{◌≡◌, ◌<◌, ◌+◌, IfOk, IsSome, IsTrue, map};
ghost use Rattle.std.specs.List.{flat_map, list_all};
ghost use Rattle.endpoint_core.specs.Forwarding.{CanLeave, IsThere, decision_of};
ghost use Rattle.endpoint_core.specs.Kept.{state_of};
ghost use Rattle.endpoint_core.specs.Step.{Decided, sent_at};
ghost use Rattle.endpoint_core.specs.Settings.{segment_at};
ghost use Rattle.endpoint_core.specs.StateStep.{can_leave};
ghost use Rattle.stream_run.specs.Sights.{IsBrought};
ghost use Rattle.timeline.specs.declared.event.Happening.TheVariants.{Record};
ghost use Rattle.tunnel_traffic.specs.TrafficRows.{counted_all};
ghost use Rattle.tunnel_traffic.specs.Traffic.{came_of};
ghost use Rattle.tunnel_traffic.specs.Lines.{tunnels_text};
ghost use Rattle.tunnel_traffic.specs.Tables.{IsTold};
ghost use Rattle.tunnel_traffic.specs.Tunnels.{answer_rows, answer_told, came_told, is_unknown, key_rows};
ghost use Rattle.tunnel_traffic.specs.Tunnels.{no_tunnels, outcome_rows, packet_told, refused_rows, rows_at};

use crate::header::key_in;
use crate::rows::{Traffic, TunnelKey};
use crate::tables::{RemoteRows, UnknownRows};
use crate::told::put_tunnels;
use endpoint_core::{Arrival, ChangeFault, Endpoint, Forwarding};
use filter_db::Place;
use std::alloc::{AllocError, Global};
use std::marker::Model;
use stream_run::Watch;
use timeline::{Captured, Event, Happening, Tap};
use wire::ether::Reason;

/// What passes by the tunnels of an endpoint. It looks on while a run goes. Only [`TunnelTraffic::open`] and
/// [`TunnelTraffic::text`] take memory; the tables take 0.75 MiB together.
#[derive(Drop)]
pub struct TunnelTraffic {
    unknown: UnknownRows,
    remotes: RemoteRows,
}

impl Model for TunnelTraffic {
    ghost use Rattle.tunnel_traffic.specs.Tunnels.{Tunnels};

    ghost Value = { Tunnels };

    ghost view = { λ t. record { unknown = t.unknown; remotes = t.remotes } };
}

impl TunnelTraffic {
    /// Nothing passed yet. `AllocError`: memory was refused.
    pub fn open(alloc: Global) -> Result<TunnelTraffic, AllocError>
        ensures { IfOk result (λ tunnels. tunnels ≡ no_tunnels) }
    {
        Ok(TunnelTraffic {
            unknown: UnknownRows::open(alloc)?,
            remotes: RemoteRows::open(alloc)?,
        })
    }

    /// What passed so far, as text, which is read back. `AllocError`: memory was refused.
    pub fn text(&self, alloc: Global) -> Result<Vec<u8>, AllocError>
        ensures text { IfOk result (λ text. text.items ≡ tunnels_text self.now) }
        ensures told { IsTold self.now }
    {
        let mut text = String::new(alloc);
        put_tunnels(alloc, &mut text, self.unknown.table(), self.remotes.table())?;
        Ok(text.into_bytes())
    }
}

impl Watch for TunnelTraffic {
    ghost use Rattle.std.specs.Prelude.{◌≡◌};
    ghost use Rattle.tunnel_traffic.specs.Tunnels.{Expects, Sees};

    ghost sees = { Sees };

    ghost expects = { Expects };

    ghost ends = { λ old state new. new ≡ old };

    #[inline]
    fn see(&mut self, endpoint: &Endpoint, _number: u64, event: &Event, came: &Forwarding) {
        match &event.happening {
            Happening::Change(_) => {}
            Happening::Record(tap, captured) => self.count_record(endpoint, *tap, captured, came),
        }
    }

    #[inline]
    fn hear_decision(&mut self, endpoint: &Endpoint, forwarding: &Forwarding, places: &[Place]) {
        self.count_decision(endpoint, forwarding, places);
    }

    fn hear_reply(&mut self, _reply: Result<(), ChangeFault>) {}

    fn pass_over(&mut self, _endpoint: &Endpoint, _number: u64, _event: &Event) {}

    fn end(&mut self, _endpoint: &Endpoint) {}
}

impl TunnelTraffic {
    /// Counts what leaves of a frame or a packet.
    #[inline]
    fn count_decision(&mut self, endpoint: &Endpoint, forwarding: &Forwarding, places: &[Place])
        requires there { IsThere (state_of endpoint.now).bridges.settings forwarding.now }
        requires leave { CanLeave (state_of endpoint.now).bridges.settings forwarding.now places.now }
        ensures { self.new ≡ answer_told self.old
            (Decided (decision_of (state_of endpoint.now).bridges.settings forwarding.now places.now)) }
    {
        count_answer(&mut self.remotes, endpoint, forwarding, places);
    }

    /// Counts what a record is before its answer.
    #[inline]
    fn count_record(
        &mut self,
        endpoint: &Endpoint,
        tap: Tap,
        captured: &Captured,
        came: &Forwarding,
    )
        requires { IsBrought (state_of endpoint.now).bridges.settings (Record tap captured.now) came.now }
        ensures { self.new ≡ came_told self.old (state_of endpoint.now).bridges.settings.overlay (Record tap captured.now) }
    {
        match tap {
            Tap::Port(_) => {}
            Tap::Underlay => self.count_packet(endpoint, captured.octets, came),
        }
    }

    /// Counts what a packet of the underlay is before its answer.
    #[inline]
    fn count_packet(&mut self, endpoint: &Endpoint, octets: &[u8], came: &Forwarding)
        ensures { self.new ≡ packet_told self.old (state_of endpoint.now).bridges.settings.overlay octets.now came.now }
    {
        match came {
            Ok(came) => count_at(
                &mut self.remotes,
                came.place(),
                Traffic::one_came(octets.len() as u64),
            ),
            Err(refused) => count_refused(&mut self.unknown, endpoint, refused.reason, octets),
        }
    }
}

/// Counts a packet that was refused for a reason, where that is that no segment has its network, and not its octets.
fn count_refused(unknown: &mut UnknownRows, endpoint: &Endpoint, reason: Reason, octets: &[u8])
    ensures { unknown.new ≡ counted_all unknown.old (refused_rows (state_of endpoint.now).bridges.settings.overlay octets.now reason) }
{
    if is_unknown(reason) {
        let key = key_in(endpoint.under(), octets);
        count_key(unknown, key);
    }
}

/// Counts a packet of a network and a sender, where there is one.
fn count_key(unknown: &mut UnknownRows, key: Option<TunnelKey>)
    ensures { unknown.new ≡ counted_all unknown.old (key_rows key (came_of 0)) }
{
    if let Some(key) = key {
        unknown.add(key);
    }
}

/// Whether no segment has the network.
fn is_unknown(reason: Reason) -> bool
    ensures { result ≡ is_unknown reason }
{
    reason.number() == Reason::UnknownVni.number()
}

/// Counts packets, one or more, of a place, where that is a remote endpoint.
#[inline]
fn count_at(remotes: &mut RemoteRows, place: Place, traffic: Traffic)
    requires { 0 < traffic.came + traffic.left }
    ensures { remotes.new ≡ counted_all remotes.old (rows_at place traffic) }
{
    if let Place::Remote(kind, address) = place {
        remotes.add(kind, address, traffic);
    }
}

/// Counts what leaves of a frame or a packet.
#[inline]
fn count_answer(
    remotes: &mut RemoteRows,
    endpoint: &Endpoint,
    forwarding: &Forwarding,
    places: &[Place],
)
    requires there { IsThere (state_of endpoint.now).bridges.settings forwarding.now }
    requires leave { CanLeave (state_of endpoint.now).bridges.settings forwarding.now places.now }
    ensures { remotes.new ≡ counted_all remotes.old
        (answer_rows (Decided (decision_of (state_of endpoint.now).bridges.settings forwarding.now places.now))) }
{
    if let Ok(came) = forwarding {
        count_leaving(remotes, endpoint, came, places);
    }
}

/// Counts what leaves of a frame at each of these places.
#[inline]
fn count_leaving(remotes: &mut RemoteRows, endpoint: &Endpoint, came: &Arrival, places: &[Place])
    requires there { IsSome (segment_at (state_of endpoint.now).bridges.settings came.now.vid) }
    requires leave { IsTrue (list_all (can_leave (state_of endpoint.now).bridges.settings came.now.vid) places.now) }
    ensures { let S = (state_of endpoint.now).bridges.settings in
        remotes.new ≡ counted_all remotes.old (flat_map outcome_rows (map (sent_at S came.now.vid came.now.frame) places.now)) }
{
    for place in places {
        count_sent(remotes, endpoint, came, place);
    }
}

/// Counts what leaves of a frame at a place, where something does. It isn't measured at a port, where nothing is counted.
#[inline]
fn count_sent(remotes: &mut RemoteRows, endpoint: &Endpoint, came: &Arrival, place: &Place)
    requires { IsTrue (can_leave (state_of endpoint.now).bridges.settings came.now.vid place.now) }
    ensures { let S = (state_of endpoint.now).bridges.settings in
        remotes.new ≡ counted_all remotes.old (outcome_rows (sent_at S came.now.vid came.now.frame place.now)) }
{
    if let Place::Local(_) = place {
        return;
    }
    if let Ok(size) = endpoint.size_at(came, *place) {
        count_at(remotes, *place, Traffic::one_left(size as u64));
    }
}
