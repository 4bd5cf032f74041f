//! Tests of the page that shows what a run gave, over the public names of `report_page` and `report_counts`. There is nothing
//! here but tests, and nothing stands on this crate.
//!
//! Read first: `page_tests`, pages of a few lines each, and what stands on them once.
//!
//! What is expected is written by hand, dates from `date -u`, never taken from a run.
mod page_tests;
