//! The lowest label that dominates each of a list.
use labels::{GradeLabel, RivalLabel};
use orders::{LabelOrder, gather};
use std::test::Fail;

#[test]
fn grades_are_gathered(rt: HostRuntime) {
    let first = GradeLabel::from_map(2, &[0x80]);
    let ninth = GradeLabel::from_map(1, &[0x00, 0x40]);
    let labels = [first, ninth];
    assert_eq!(rt; gather(&labels[0..0]), GradeLabel::low());
    assert_eq!(rt; gather(&labels[0..1]), first);
    assert_eq!(rt; gather(&labels), GradeLabel::from_map(2, &[0x80, 0x40]));
}

#[test]
fn rivals_are_gathered(rt: HostRuntime) -> Result<(), Fail> {
    let labels = [
        RivalLabel::try_from([4, 0, 0, 0, 0, 0, 0, 0])?,
        RivalLabel::try_from([7, 0, 0, 0, 0, 0, 0, 9])?,
    ];
    assert_eq!(rt; gather(&labels[0..0]), RivalLabel::low());
    assert_eq!(rt; gather(&labels[1..2]), labels[1]);
    let both = RivalLabel::try_from([251, 0, 0, 0, 0, 0, 0, 9])?;
    assert_eq!(rt; gather(&labels), both);
    Ok(())
}
