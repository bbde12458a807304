//! What is wrong with a record. Each fault has the place of what it speaks of, and carries the fault below it whole.
ghost use Rattle.std.specs.Prelude.{◌≡◌};
ghost use Rattle.faults.specs.Faults.{at_field, at_record, field_refusal, refusal_number};
ghost use Rattle.faults.specs.declared.layers.FieldCause.TheVariants.{Number, Base16, Tag};
ghost use Rattle.faults.specs.declared.layers.RecordCause.TheVariants.{Field};

use tags::TagFault;

/// The octet of a number's text that is wrong.
#[derive(Clone, Copy, PartialEq, Eq, Debug)]
pub struct NumberFault {
    pub octet: usize,
}

// Apart from `NumberFault` and `TagFault`, so that `?` knows the cause by the type.
/// The octet of a text of Base 16 digits that is wrong.
#[derive(Clone, Copy, PartialEq, Eq, Debug)]
pub struct Base16Fault {
    pub octet: usize,
}

/// What is wrong with a field's text.
#[derive(Clone, Copy, PartialEq, Eq, Debug)]
pub enum FieldCause {
    Word,
    Number(NumberFault),
    Base16(Base16Fault),
    Tag(TagFault),
}

/// A field that is wrong, by its place in the record: the first word is field 0.
#[derive(Clone, Copy, PartialEq, Eq, Debug)]
pub struct FieldFault {
    pub field: usize,
    pub cause: FieldCause,
}

/// What is wrong with a record.
#[derive(Clone, Copy, PartialEq, Eq, Debug)]
pub enum RecordCause {
    /// It has more than 256 octets.
    TooLong,
    /// Its first octet that is a quote or ends a line, by its place.
    Stray(usize),
    /// It has more or fewer fields than its word wants.
    FieldCount,
    Field(FieldFault),
}

// Apart from `FieldFault`: the project names the fault of each layer.
/// A record that is wrong, by its place in the input: the first is 1.
#[derive(Clone, Copy, PartialEq, Eq, Debug)]
pub struct RecordFault {
    pub record: usize,
    pub cause: RecordCause,
}

impl FieldCause {
    // Beside `in_record`, since the project names the fault of each layer.
    /// The fault of a field that is wrong for this cause.
    pub fn in_field(self, field: usize) -> FieldFault
        ensures { result ≡ at_field field self }
    {
        FieldFault { field, cause: self }
    }
}

impl FieldFault {
    // A number, since the project lists its refusals by numbers.
    /// The number of the refusal that the fault stands for.
    pub fn number(self) -> u8
        ensures { result ≡ field_refusal self }
    {
        match self.cause {
            FieldCause::Tag(_) => 8,
            FieldCause::Word | FieldCause::Number(_) | FieldCause::Base16(_) => 10,
        }
    }
}

impl RecordCause {
    // A number, since the project lists its refusals by numbers.
    /// The number of the refusal that the cause stands for.
    pub fn number(self) -> u8
        ensures { result ≡ refusal_number self }
    {
        match self {
            RecordCause::Field(field) => field.number(),
            RecordCause::TooLong | RecordCause::Stray(_) | RecordCause::FieldCount => 10,
        }
    }

    /// The fault of a record that is wrong for this cause.
    pub fn in_record(self, record: usize) -> RecordFault
        ensures { result ≡ at_record «record» self }
    {
        RecordFault {
            record,
            cause: self,
        }
    }
}

// A conversion for each cause: a derived one has no contract.
impl From<NumberFault> for FieldCause {
    ghost from_gives = { λ f r. r ≡ Number f };

    fn from(fault: NumberFault) -> FieldCause {
        FieldCause::Number(fault)
    }
}

impl From<Base16Fault> for FieldCause {
    ghost from_gives = { λ f r. r ≡ Base16 f };

    fn from(fault: Base16Fault) -> FieldCause {
        FieldCause::Base16(fault)
    }
}

impl From<TagFault> for FieldCause {
    ghost from_gives = { λ f r. r ≡ Tag f };

    fn from(fault: TagFault) -> FieldCause {
        FieldCause::Tag(fault)
    }
}

impl From<FieldFault> for RecordCause {
    ghost from_gives = { λ f r. r ≡ Field f };

    fn from(fault: FieldFault) -> RecordCause {
        RecordCause::Field(fault)
    }
}
