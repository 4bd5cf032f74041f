//! What a run writes.
use pcap::stream::{Output, Sink};
use std::marker::Model;

/// Where a run writes: the captures of the ports, that of port 1 first, the capture of the underlay, and the decision lines.
///
/// Contracts see what was written to each and what it holds back, how often it failed, and whether its sink has given up. The
/// output of the lines is no sink: it gives up at no time.
#[derive(Drop)]
pub struct RunOutputs<W: Output> {
    pub ports: Vec<Sink<W>>,
    pub underlay: Sink<W>,
    pub decisions: W,
}

impl<W: Output> Model for RunOutputs<W> {
    ghost use Rattle.timeline.specs.Drains.{Drains, drains};

    ghost Value = { Drains };

    ghost view = { λ o. drains o.ports.items o.underlay (W.written o.decisions) (W.failures o.decisions) (W.held o.decisions) };
}
