//! Tests of the parts of a run and of runs over streams: a module for each. There is nothing here but tests, and nothing stands
//! on this crate.
#![tactic(auto)]

#[cfg(test)]
mod tests;
