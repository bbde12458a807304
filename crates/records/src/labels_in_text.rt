//! Labels, as tags in Base 16.
ghost use Rattle.std.specs.Prelude.{◌≡◌};
ghost use Rattle.records.specs.Texts.{only_tag, written_label, label_field};

use crate::base16::decode;
use crate::values::LabelField;
use arrayvec::ArrayVec;
use faults::{Base16Fault, FieldCause, FieldFault};
use labels::GradeLabel;
use tags::{TagFault, read_tag};

const MOST_DIGITS: usize = 256;

/// The label of a tag in Base 16 that fills the whole text. A text of more than 256 octets is in no record, and is refused
/// at octet 256.
pub fn read_label(text: &[u8]) -> Result<GradeLabel, FieldCause>
    ensures { result ≡ written_label text.now }
{
    if text.len() > MOST_DIGITS {
        return Err(FieldCause::Base16(Base16Fault { octet: MOST_DIGITS }));
    }
    let mut octets = ArrayVec::new();
    decode(text, &mut octets)?;
    only_tag(octets.as_slice())
}

// The label of one tag that fills all octets.
fn only_tag(octets: &[u8]) -> Result<GradeLabel, FieldCause>
    ensures { result ≡ only_tag octets.now }
{
    let (label, used) = read_tag(octets)?;
    if used < octets.len() {
        return Err(FieldCause::Tag(TagFault { octet: used }));
    }
    Ok(label)
}

// The label in a record's field. A fault of its tag stays with the field, and any other is the record's.
pub(crate) fn label_field(text: &[u8], field: usize) -> Result<LabelField, FieldFault>
    ensures { result ≡ label_field text.now field }
{
    match read_label(text) {
        Ok(label) => Ok(Ok(label)),
        Err(cause @ FieldCause::Tag(_)) => Ok(Err(cause.in_field(field))),
        Err(cause) => Err(cause.in_field(field)),
    }
}
