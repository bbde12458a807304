//! The policies that are shipped, over any label order: secrecy and integrity, by one core of rules, and both at once.
#![tactic(auto)]

mod integrity_policy;
mod joint_policy;
mod marks;
mod ranges;
mod secrecy_policy;

pub use integrity_policy::Integrity;
pub use joint_policy::Joint;
pub use marks::SixLabels;
pub use secrecy_policy::Secrecy;
