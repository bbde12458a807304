//! Records, and what is wrong with them.
use faults::{Base16Fault, FieldCause, FieldFault, NumberFault, RecordCause, RecordFault};
use labels::GradeLabel;
use policies::Kind;
use records::{Record, read_record, read_record_at};
use reference::Request;
use tags::TagFault;

fn at_field(field: usize, cause: FieldCause) -> Result<Record, RecordCause> {
    Err(RecordCause::Field(FieldFault { field, cause }))
}

#[test]
fn records_are_read(rt: HostRuntime) {
    let grade2 = Ok(GradeLabel::from_map(2, &[]));
    let request = Record::Request(Request {
        session: 0,
        object: 1,
        kind: Kind::Read,
    });
    assert_eq!(rt; read_record(b"read,0,1"), Ok(request));
    let session = Record::Session {
        clearance: grade2,
        start: grade2,
    };
    assert_eq!(rt; read_record(b"session,01040002,01040002"), Ok(session));
    let after_tag = FieldFault {
        field: 1,
        cause: FieldCause::Tag(TagFault { octet: 4 }),
    };
    assert_eq!(rt;
        read_record(b"object,0104000101"),
        Ok(Record::Object(Err(after_tag)))
    );
    let forty =
        b"object,01040001000000000000000000000000000000000000000000000000000000000000000000000000";
    assert_eq!(rt;
        read_record(forty),
        Ok(Record::Object(Err(after_tag))),
        "40 octets"
    );
    let whole = RecordFault {
        record: 7,
        cause: RecordCause::Field(after_tag),
    };
    assert_eq!(rt;
        read_record_at(b"object,0104000101", 7),
        Err(whole),
        "tag, field and record"
    );
}

#[test]
fn fields_are_refused(rt: HostRuntime) {
    let zero = FieldCause::Number(NumberFault { octet: 0 });
    assert_eq!(rt;
        read_record(b"read,00,0"),
        at_field(1, zero),
        "a needless zero"
    );
    let sixth = FieldCause::Number(NumberFault { octet: 5 });
    assert_eq!(rt;
        read_record(b"read,0,100000"),
        at_field(2, sixth),
        "six digits"
    );
    let lower = FieldCause::Base16(Base16Fault { octet: 4 });
    assert_eq!(rt;
        read_record(b"object,0104ff00"),
        at_field(1, lower),
        "lower case"
    );
    assert_eq!(rt;
        read_record(b"policy,secrecy"),
        at_field(1, FieldCause::Word),
        "a policy"
    );
    assert_eq!(rt;
        read_record(b"open,0"),
        at_field(0, FieldCause::Word),
        "a word"
    );
}

#[test]
fn records_are_refused(rt: HostRuntime) {
    assert_eq!(rt;
        read_record(b"close,\"0\""),
        Err(RecordCause::Stray(6)),
        "a quote"
    );
    assert_eq!(rt;
        read_record(&[b'0'; 257]),
        Err(RecordCause::TooLong),
        "257 octets"
    );
    assert_eq!(rt;
        read_record(b"close"),
        Err(RecordCause::FieldCount),
        "no field"
    );
    assert_eq!(rt;
        read_record(b"close,0,0"),
        Err(RecordCause::FieldCount),
        "a field too many"
    );
    assert_eq!(rt;
        read_record(b"read,0,0,0"),
        Err(RecordCause::FieldCount),
        "four fields"
    );
}
