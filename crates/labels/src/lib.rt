//! The label orders that are shipped: grades with categories, and rival brokers.
#![tactic(auto)]

mod grades;
mod rivals;

pub use grades::GradeLabel;
pub use rivals::{RivalLabel, UnknownBroker};
