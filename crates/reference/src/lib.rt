//! What every reference monitor speaks of: requests, the entries of a log, the states of sessions, refusals.
#![tactic(auto)]

mod entries;
mod refusals;
mod sessions;

pub use entries::{Entry, Request};
pub use refusals::Refusal;
pub use sessions::SessionState;
