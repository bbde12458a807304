//! What is wrong with a record, in layers: the tag, the field, the record.
#![tactic(auto)]

mod layers;

pub use layers::{Base16Fault, FieldCause, FieldFault, NumberFault, RecordCause, RecordFault};
