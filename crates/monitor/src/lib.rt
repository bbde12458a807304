//! The reference monitor that keeps marks for each session.
#![tactic(auto)]

mod monitors;
mod tables;

pub use monitors::Monitor;
pub use tables::SessionRow;
