//! What passed by tunnels.
ghost use Rattle.std.specs.Prelude.{◌≡◌, IfErr, IfOk};
ghost use Rattle.tunnel_traffic.specs.Lines.{tunnels_text};
ghost use Rattle.tunnel_traffic.specs.Rows.{rows_of, told_by, with_row};
ghost use Rattle.tunnel_traffic.specs.Tables.{IsTold, Tunnels, both, no_tunnels, packets_of};
ghost use Rattle.tunnel_traffic.specs.declared.told.fault.TrafficFault.TheVariants.{OutOfMemory};

use crate::rows::{Traffic, TrafficRows};
use crate::told::fault::TrafficFault;
use crate::told::lines::put_tunnels;
use crate::told::row::{Row, row_in};
use line_words::{first_difference, next_line};
use std::alloc::{AllocError, Global};
use std::marker::Model;

/// What passed by tunnels in a run or a part of it, as its lines tell it; seen by contracts as its tables, which take 0.75 MiB
/// together.
#[derive(Drop)]
pub struct TunnelTables {
    /// Packets of networks that no segment has.
    unknown: TrafficRows,
    remotes: TrafficRows,
}

impl Model for TunnelTables {
    ghost use Rattle.tunnel_traffic.specs.Tables.{Tunnels};

    ghost Value = { Tunnels };

    ghost view = { λ t. record { unknown = t.unknown; remotes = t.remotes } };
}

impl TunnelTables {
    /// Reads what a run told of tunnels, which is read back wherever a run told it. `Line`: no run tells this text, and this is
    /// the first line that isn't as a run has it of the tables that the lines tell. `OutOfMemory`: memory was refused.
    pub fn read(alloc: Global, text: &[u8]) -> Result<TunnelTables, TrafficFault>
        ensures text { IfOk result (λ tables. text.now ≡ tunnels_text tables) }
        ensures same { (t : Tunnels) → IsTold t → text.now ≡ tunnels_text t → IfOk result (λ tables. tables ≡ t) }
        ensures read { (t : Tunnels) → IsTold t → text.now ≡ tunnels_text t → IfErr result (λ fault. fault ≡ OutOfMemory) }
    {
        let tables = TunnelTables::of_lines(alloc, text)?;
        let written = tables.to_text(alloc)?;
        if written.as_slice() == text {
            Ok(tables)
        } else {
            Err(TrafficFault::Line(first_difference(text, written.as_slice())))
        }
    }

    /// What the lines of a text tell; lines that tell nothing are passed over.
    fn of_lines(alloc: Global, text: &[u8]) -> Result<TunnelTables, AllocError>
        ensures { IfOk result (λ tables. tables ≡ told_by no_tunnels (rows_of text.now)) }
    {
        let mut tables = TunnelTables::none(alloc)?;
        let mut rest = text;
        while let Some((line, behind)) = next_line(rest) {
            if let Some(row) = row_in(line) {
                tables.set(row);
            }
            rest = behind;
        }
        Ok(tables)
    }

    /// Nothing passed. It takes the memory of all rows.
    pub fn none(alloc: Global) -> Result<TunnelTables, AllocError>
        ensures { IfOk result (λ tables. tables ≡ no_tunnels) }
    {
        Ok(TunnelTables {
            unknown: TrafficRows::open(alloc)?,
            remotes: TrafficRows::open(alloc)?,
        })
    }

    /// Takes what a line tells.
    fn set(&mut self, row: Row)
        ensures { self.new ≡ with_row self.old row }
    {
        match row {
            Row::Unknown(key, count) => self.unknown.add(key, packets_of(count)),
            Row::UnknownOthers(count) => self.unknown.add_others(packets_of(count)),
            Row::Remote(key, traffic) => self.remotes.add(key, traffic),
            Row::RemoteOthers(traffic) => self.remotes.add_others(traffic),
        }
    }

    /// Takes what passed in another part. Each count ends at 2^64 - 1.
    pub fn add(&mut self, other: &TunnelTables)
        ensures { self.new ≡ both self.old other.now }
    {
        self.unknown.add_all(&other.unknown);
        self.remotes.add_all(&other.remotes);
    }

    /// The text, as a run prints it. `AllocError`: memory was refused.
    pub fn to_text(&self, alloc: Global) -> Result<Vec<u8>, AllocError>
        ensures { IfOk result (λ text. text.items ≡ tunnels_text self.now) }
    {
        let mut text = String::new(alloc);
        put_tunnels(alloc, &mut text, &self.unknown, &self.remotes)?;
        Ok(text.into_bytes())
    }
}

/// So many packets that came, without their octets.
fn packets_of(count: u64) -> Traffic
    ensures { result ≡ packets_of count }
{
    Traffic {
        came: count,
        came_octets: 0,
        left: 0,
        left_octets: 0,
    }
}
