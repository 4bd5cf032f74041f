//! The tables of packets of networks that no segment has, and of remote endpoints.
ghost use Rattle.std.specs.Prelude.{◌≡◌, ◌<◌, ◌+◌, IfOk};
ghost use Rattle.tunnel_traffic.specs.TrafficRows.{counted, no_rows};
ghost use Rattle.tunnel_traffic.specs.Traffic.{came_of};
ghost use Rattle.tunnel_traffic.specs.Tables.{ArePackets, IsEndpoint, IsNetwork, IsTable, IsTraffic, endpoint_key};

use crate::rows::{Traffic, TrafficRows, TunnelKey};
use std::alloc::{AllocError, Global};
use std::marker::Model;
use wire::ip_udp::{Addr, Tunnel};
use wire::vxlan::Vni;

/// Packets of networks that no segment has, without their octets.
#[derive(Drop)]
pub struct UnknownRows {
    rows: TrafficRows,
}

impl Model for UnknownRows {
    ghost use Rattle.tunnel_traffic.specs.TrafficRows.{Rows};
    ghost use Rattle.tunnel_traffic.specs.Tables.{ArePackets, IsNetwork, IsTable};

    ghost Value = { Rows };

    ghost view = { λ t. t.rows };

    ghost invariant = { λ t. IsTable IsNetwork ArePackets t.rows };
}

impl UnknownRows {
    /// A table of no packet. `AllocError`: memory was refused.
    pub fn open(alloc: Global) -> Result<UnknownRows, AllocError>
        ensures { IfOk result (λ table. table ≡ no_rows) }
    {
        let rows = TrafficRows::open(alloc)?;
        Ok(UnknownRows { rows })
    }

    /// Counts a packet.
    pub fn add(&mut self, key: TunnelKey)
        ensures { self.new ≡ counted self.old key (came_of 0) }
    {
        self.rows.add(key, Traffic::one_came(0));
    }

    /// The table, which is one that is read back.
    pub fn table(&self) -> &TrafficRows
        ensures whole { result.now ≡ self.now }
        ensures told { IsTable IsNetwork ArePackets self.now }
    {
        &self.rows
    }
}

/// What came and left by remote endpoints.
#[derive(Drop)]
pub struct RemoteRows {
    rows: TrafficRows,
}

impl Model for RemoteRows {
    ghost use Rattle.tunnel_traffic.specs.TrafficRows.{Rows};
    ghost use Rattle.tunnel_traffic.specs.Tables.{IsEndpoint, IsTable, IsTraffic};

    ghost Value = { Rows };

    ghost view = { λ t. t.rows };

    ghost invariant = { λ t. IsTable IsEndpoint IsTraffic t.rows };
}

impl RemoteRows {
    /// A table of no packet. `AllocError`: memory was refused.
    pub fn open(alloc: Global) -> Result<RemoteRows, AllocError>
        ensures { IfOk result (λ table. table ≡ no_rows) }
    {
        let rows = TrafficRows::open(alloc)?;
        Ok(RemoteRows { rows })
    }

    /// Counts packets, one or more, of a remote endpoint.
    pub fn add(&mut self, kind: Tunnel, address: Addr, traffic: Traffic)
        requires { 0 < traffic.came + traffic.left }
        ensures { self.new ≡ counted self.old (endpoint_key kind address) traffic }
    {
        let vni = Vni::from_octets([0; 3]);
        self.rows.add(TunnelKey { kind, vni, address }, traffic);
    }

    /// The table, which is one that is read back.
    pub fn table(&self) -> &TrafficRows
        ensures whole { result.now ≡ self.now }
        ensures told { IsTable IsEndpoint IsTraffic self.now }
    {
        &self.rows
    }
}
