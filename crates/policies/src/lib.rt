//! What a mandatory access policy is: it says what a session may read and write, by labels.
#![tactic(auto)]

mod policies;
mod products;
mod verdicts;

pub use policies::Policy;
pub use products::Product;
pub use verdicts::{DecideRefusal, Decision, Kind, StartRefusal, Verdict};
