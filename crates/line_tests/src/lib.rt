//! Tests of the program's lines, read back, as objects of JSON, counted and as a page: a module for each. There is nothing here
//! but tests, and nothing stands on this crate.
#![tactic(auto)]

#[cfg(test)]
mod tests;
