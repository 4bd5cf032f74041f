//! Tests of captures in the forms of libpcap and pcapng: a module for each. There is nothing here but tests, and nothing
//! stands on this crate.
#![tactic(auto)]

#[cfg(test)]
mod tests;
