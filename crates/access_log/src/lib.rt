//! The log over a lent slice of places.
#![tactic(auto)]

mod logs;

pub use logs::Log;
