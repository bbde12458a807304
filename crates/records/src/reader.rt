//! Reading a record.
ghost use Rattle.std.specs.Prelude.{◌≡◌, ◌≤◌, length};
ghost use Rattle.records.specs.Fields.{fields_of, stray, stray_from};
ghost use Rattle.records.specs.Lines.{policy_record, session_record, request_record, with_one, with_two, by_fields, record_of, tags_of, whole_record, record_at};

use crate::fields::field_at;
use crate::labels_in_text::label_field;
use crate::numbers::number_field;
use crate::values::{PolicyName, Record};
use crate::words::Word;
use faults::{FieldFault, RecordCause, RecordFault};
use policies::Kind;
use reference::Request;

const LONGEST: usize = 256;

const QUOTE: u8 = b'"';

// Whether an octet is a quote or ends a line.
fn is_stray(octet: u8) -> bool
    ensures { result ≡ stray octet }
{
    matches!(octet, QUOTE | b'\r' | b'\n')
}

// The first stray octet of a record.
fn stray_octet(line: &[u8]) -> Option<usize>
    ensures { result ≡ stray_from 0 line.now }
{
    line.iter().position(|octet| is_stray(*octet))
}

fn policy_record(name: &[u8]) -> Result<Record, FieldFault>
    ensures { result ≡ policy_record name.now }
{
    let name = PolicyName::try_from(name).map_err(|cause| cause.in_field(1))?;
    Ok(Record::Policy(name))
}

fn session_record(clearance: &[u8], start: &[u8]) -> Result<Record, FieldFault>
    ensures { result ≡ session_record clearance.now start.now }
{
    Ok(Record::Session {
        clearance: label_field(clearance, 1)?,
        start: label_field(start, 2)?,
    })
}

fn request_record(kind: Kind, session: &[u8], object: &[u8]) -> Result<Record, FieldFault>
    ensures { result ≡ request_record kind session.now object.now }
{
    Ok(Record::Request(Request {
        session: number_field(session, 1)?,
        object: number_field(object, 2)?,
        kind,
    }))
}

// A record of a word and one field more. By a match, here and for two fields, so that no word is left out.
fn with_one(word: Word, field: &[u8]) -> Result<Record, RecordCause>
    ensures { result ≡ with_one word field.now }
{
    let record = match word {
        Word::Policy => policy_record(field)?,
        Word::Object => Record::Object(label_field(field, 1)?),
        Word::Close => Record::Close(number_field(field, 1)?),
        Word::Session | Word::Request(_) => return Err(RecordCause::FieldCount),
    };
    Ok(record)
}

// A record of a word and two fields more.
fn with_two(word: Word, first: &[u8], second: &[u8]) -> Result<Record, RecordCause>
    ensures { result ≡ with_two word first.now second.now }
{
    let record = match word {
        Word::Session => session_record(first, second)?,
        Word::Request(kind) => request_record(kind, first, second)?,
        Word::Policy | Word::Object | Word::Close => return Err(RecordCause::FieldCount),
    };
    Ok(record)
}

// A record of its fields: a word, and one or two more. By `field_at`, which the project wants to hand out each field, and no
// iterator over them.
#[tactic(auto, using(crate::proofs::Splits::fields_by_field, crate::proofs::Splits::rest_by_field))]
fn read_fields(line: &[u8]) -> Result<Record, RecordCause>
    requires { length line.now ≤ 256 }
    ensures { result ≡ by_fields (fields_of line.now) }
{
    let first = field_at(line, 0).ok_or(RecordCause::FieldCount)?;
    let word = Word::try_from(first).map_err(|cause| cause.in_field(0))?;
    let next = first.len() + 1;
    let second = field_at(line, next).ok_or(RecordCause::FieldCount)?;
    let after = next + second.len() + 1;
    let Some(third) = field_at(line, after) else {
        return with_one(word, second);
    };
    match field_at(line, after + third.len() + 1) {
        Some(_) => Err(RecordCause::FieldCount),
        None => with_two(word, second, third),
    }
}

/// The record that a line is: at most 256 octets, with no quote and no end of a line.
#[tactic(auto, unfolding(crate::specs::Lines::record_of))]
pub fn read_record(line: &[u8]) -> Result<Record, RecordCause>
    ensures { result ≡ record_of line.now }
{
    if line.len() > LONGEST {
        return Err(RecordCause::TooLong);
    }
    match stray_octet(line) {
        Some(octet) => Err(RecordCause::Stray(octet)),
        None => read_fields(line),
    }
}

// Whether the tags of a record's labels are right.
fn check_tags(record: Record) -> Result<(), FieldFault>
    ensures { result ≡ tags_of «record» }
{
    match record {
        Record::Object(label) => {
            label?;
        }
        Record::Session { clearance, start } => {
            clearance?;
            start?;
        }
        Record::Policy(_) | Record::Request(_) | Record::Close(_) => {}
    }
    Ok(())
}

// The record that a line is, with right tags.
fn read_whole(line: &[u8]) -> Result<Record, RecordCause>
    ensures { result ≡ whole_record (record_of line.now) }
{
    let record = read_record(line)?;
    check_tags(record)?;
    Ok(record)
}

/// The record at a place of the input, from 1. A fault of a tag is passed up too, with its field and its record.
pub fn read_record_at(line: &[u8], place: usize) -> Result<Record, RecordFault>
    ensures { result ≡ record_at line.now place }
{
    read_whole(line).map_err(|cause| cause.in_record(place))
}
