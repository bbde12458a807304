//! What a record of a batch comes to, and the record that says so.
#![tactic(auto)]

mod outcomes;

pub use outcomes::{Answer, BatchRefusal, put};
