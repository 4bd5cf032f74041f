//! Tests of the texts that an operator writes: what settings and changes mean, and texts that are cut, spoilt or thrown
//! together from pieces. There is nothing here but tests, and nothing stands on this crate.
//!
//! Read first: `meaning_tests`, what texts mean. `spoilt_tests` replaces each octet of good texts and takes each of their
//! fronts, and `thrown_tests` throws 2,000 texts together. `tests/settings/settings.sh` puts over 400 texts to the program, each with
//! its first fault.
//!
//! What is expected comes from docs/FORMATS.md and from the standard of TOML 1.1, never from a run. What a text that means harm
//! has to answer comes from that standard too; where it leaves it open (a key with 65,536 dots) a test asks only that there is
//! a fault.
#![tactic(auto)]

#[cfg(test)]
mod tests;
