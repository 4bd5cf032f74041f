//! Worked rows over streams: what a run writes over devices that move few octets at a time, and over devices that fail. There
//! is nothing here but tests, and nothing stands on this crate.
//!
//! Read first: `rows`, the settings, changes and captures. `same` runs them over devices of memory that move 1, 7 or 4,096
//! octets at a time: a run over streams writes what a run in memory answers, or stops with the same fault. In `failing` a read
//! or a write fails, each in turn: the run blames that device and leaves whole events and a part of one. In `sieved` a sieve
//! leaves out what comes in at one port: the run writes what one writes over captures without it, and tells its faults. In
//! `many_ports` a frame leaves at 254 of 255 ports.
//!
//! What is expected is what [`capture_run::run_bytes`] answers, whose rows were worked out by hand, and after a fault how far
//! each output may have come.
mod failing;
mod many_ports;
mod rows;
mod run;
mod same;
mod sieved;
