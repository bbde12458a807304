//! What a label order is: a lattice of labels under dominance; and what is made of any order.
#![tactic(auto)]

mod gathering;
mod orders;
mod pairs;

pub use gathering::gather;
pub use orders::LabelOrder;
pub use pairs::Pair;
