//! The rows: settings, changes, and captures of three ports and of the underlay.
use capture_run::{Outputs, RunFault, run_bytes};
use std::alloc::Global;
use std::test::Fail;
use test_inputs::Captures;
use test_inputs::settings::{ENDPOINT, bridge};

/// An entry is dead at its ageing, ten seconds: three events.
pub(crate) const AGEING: [&str; 3] = [
    "0 p2 60 ALL M2 0806",
    "9999999999 p1 60 M2 M1 0800",
    "10000000000 p1 60 M2 M1 0800",
];

/// What a run is made on.
#[derive(Drop)]
pub(crate) struct Row {
    pub(crate) settings: String,
    pub(crate) changes: String,
    pub(crate) captures: Captures,
    /// A sieve leaves out what comes in at port 2.
    pub(crate) is_sieved: bool,
}

impl Row {
    /// A run with these settings, whose captures hold what these lines tell.
    pub(crate) fn new(alloc: Global, settings: &str, lines: &[&str]) -> Result<Row, Fail> {
        let mut captures = Captures::empty(alloc)?;
        for line in lines {
            captures.put(alloc, line)?;
        }
        Ok(Row {
            settings: String::from_str(alloc, settings)?,
            changes: String::new(alloc),
            captures,
            is_sieved: false,
        })
    }

    /// An endpoint with a VXLAN segment, whose entries age in ten seconds, and a Geneve segment.
    pub(crate) fn ageing(alloc: Global, lines: &[&str]) -> Result<Row, Fail> {
        let settings = ENDPOINT.replacen(alloc, "vni = 5000\n", "vni = 5000\nageing = 10\n", 1)?;
        Row::new(alloc, settings.as_str(), lines)
    }

    /// A learning bridge of three ports without remotes.
    pub(crate) fn bridge(alloc: Global, lines: &[&str]) -> Result<Row, Fail> {
        Row::new(alloc, bridge(alloc)?.as_str(), lines)
    }

    /// What a run over memory answers.
    pub(crate) fn answered(&self, alloc: Global) -> Result<Outputs, RunFault> {
        run_bytes(
            alloc,
            self.settings.as_bytes(),
            self.changes.as_bytes(),
            self.captures.ports.as_slice(),
            self.captures.underlay.as_slice(),
        )
    }
}
