//! Batches: records in, calls of a monitor, records out.
#![tactic(auto)]

mod batches;
mod blanks;
mod breaks;
mod lines;
mod loading;
mod run;
mod serving;

pub use batches::run_batch;
