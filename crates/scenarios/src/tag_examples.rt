//! Tags, and the octets that are wrong in them.
use labels::GradeLabel;
use tags::{TagFault, read_tag};

#[test]
fn both_types_are_read(rt: HostRuntime) {
    let label = GradeLabel::from_map(2, &[0x80, 0x40]);
    assert_eq!(rt; read_tag(&[1, 6, 0, 2, 0x80, 0x40]), Ok((label, 6)));
    assert_eq!(rt; read_tag(&[2, 8, 0, 2, 0, 0, 0, 9]), Ok((label, 8)));
}

#[test]
fn faults_name_their_octet(rt: HostRuntime) {
    assert_eq!(rt; read_tag(&[]), Err(TagFault { octet: 0 }), "no octet");
    assert_eq!(rt;
        read_tag(&[3, 4, 0, 2]),
        Err(TagFault { octet: 0 }),
        "type 3"
    );
    assert_eq!(rt;
        read_tag(&[2, 5, 0, 2, 0]),
        Err(TagFault { octet: 1 }),
        "odd length"
    );
    assert_eq!(rt;
        read_tag(&[1, 35, 0, 2]),
        Err(TagFault { octet: 1 }),
        "length 35"
    );
    assert_eq!(rt;
        read_tag(&[1, 4, 1, 2]),
        Err(TagFault { octet: 2 }),
        "octet 2"
    );
    assert_eq!(rt;
        read_tag(&[2, 8, 0, 2, 0, 9, 0, 0]),
        Err(TagFault { octet: 6 }),
        "falling"
    );
}
