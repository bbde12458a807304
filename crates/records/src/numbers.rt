//! Numbers.
ghost use Rattle.std.specs.Prelude.{◌≡◌};
ghost use Rattle.records.specs.Texts.{number_of, number_field};

use faults::{FieldCause, FieldFault, NumberFault};

const MOST_DIGITS: usize = 5;

/// A number of one to five decimal digits, with no needless zero in front.
#[tactic(auto, using(crate::proofs::Steps::digits_stop))]
pub fn read_number(text: &[u8]) -> Result<usize, NumberFault>
    ensures { result ≡ number_of text.now }
{
    if let [] | [b'0', _, ..] = text {
        return Err(NumberFault { octet: 0 });
    }
    // A loop and no `try_fold`, of which two goals stayed open: that the value fits, and what it is.
    let mut value = 0usize;
    for (i, octet) in text.iter().enumerate() {
        if i == MOST_DIGITS || !octet.is_ascii_digit() {
            return Err(NumberFault { octet: i });
        }
        value = value * 10 + usize::from(*octet - b'0');
    }
    Ok(value)
}

// The number in a record's field.
pub(crate) fn number_field(text: &[u8], field: usize) -> Result<usize, FieldFault>
    ensures { result ≡ number_field text.now field }
{
    read_number(text).map_err(|fault| FieldCause::from(fault).in_field(field))
}
