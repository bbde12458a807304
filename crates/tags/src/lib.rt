//! Tags: the octets that carry a label.
#![tactic(auto)]

mod faults;
mod reader;

pub use faults::TagFault;
pub use reader::{read_tag, tags_are_their_categories};
