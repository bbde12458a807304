//! What a record says.
use faults::FieldFault;
use labels::GradeLabel;
use reference::Request;

/// A label, or the fault of its tag, which counts only once the record is known to be in place.
pub type LabelField = Result<GradeLabel, FieldFault>;

/// The policies that a batch can be run under. Confidentiality is the records' word for secrecy.
#[derive(Clone, Copy, PartialEq, Eq, Debug)]
pub enum PolicyName {
    Confidentiality,
    Integrity,
}

/// A record of a right form.
#[derive(Clone, Copy, PartialEq, Eq, Debug)]
pub enum Record {
    Policy(PolicyName),
    Object(LabelField),
    Session {
        clearance: LabelField,
        start: LabelField,
    },
    Request(Request),
    Close(usize),
}
