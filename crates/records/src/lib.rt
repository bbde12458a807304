//! Records: the lines of a batch file, and what is wrong with one.
#![tactic(auto)]

mod base16;
mod fields;
mod labels_in_text;
mod numbers;
mod reader;
mod values;
mod words;

pub use fields::field_at;
pub use labels_in_text::read_label;
pub use numbers::read_number;
pub use reader::{read_record, read_record_at};
pub use values::{LabelField, PolicyName, Record};
