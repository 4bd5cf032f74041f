//! Tests of a whole run's texts, of captures in both directions and of the lines of progress: a module for each. There is nothing
//! here but tests, and nothing stands on this crate.
#![tactic(auto)]

#[cfg(test)]
mod tests;
