//! Days of one session over the grade order, under secrecy and under integrity.
use crate::days::{BLANK, ask, blank_row, gives};
use labels::GradeLabel;
use monitor::{Monitor, SessionRow};
use orders::LabelOrder;
use policies::{Kind, Policy, Verdict};
use reference::{Entry, Refusal, Request, SessionState};
use rules::{Integrity, Secrecy, SixLabels};
use std::mem::size_of;
use std::test::Fail;

fn plain(grade: u8) -> GradeLabel {
    GradeLabel::from_map(grade, &[])
}

// The objects have the plain grades 0 to 6, by their numbers.
fn grades() -> [GradeLabel; 7] {
    [0, 1, 2, 3, 4, 5, 6].map(plain)
}

#[test]
fn a_label_takes_32_octets(rt: HostRuntime) {
    assert_eq!(rt; size_of::<GradeLabel>(), 32);
}

#[test]
fn secrecy_around_the_clearance(rt: HostRuntime) -> Result<(), Fail> {
    let objects = grades();
    let mut rows = [blank_row(); 1];
    let mut places = [BLANK; 8];
    let mut day = Monitor::<Secrecy<GradeLabel>>::new(&objects, &mut rows, &mut places);
    assert_eq!(rt; day.enrol(plain(2), plain(2))?, 0);
    gives(&rt, &mut day, ask(0, Kind::Read, 2), Verdict::Granted)?;
    assert_eq!(rt; day.row(0)?.in_high, plain(2));
    assert_eq!(rt; day.row(0)?.current, plain(2));
    gives(&rt, &mut day, ask(0, Kind::Write, 3), Verdict::Granted)?;
    assert_eq!(rt; day.row(0)?.out_low, plain(3));
    gives(&rt, &mut day, ask(0, Kind::Write, 1), Verdict::History)?;
    gives(&rt, &mut day, ask(0, Kind::Read, 3), Verdict::Clearance)?;
    gives(&rt, &mut day, ask(0, Kind::Both, 2), Verdict::Granted)?;
    assert_eq!(rt; day.row(0)?.out_low, plain(2));
    Ok(())
}

#[test]
fn secrecy_after_a_write_below_the_clearance(rt: HostRuntime) -> Result<(), Fail> {
    let objects = grades();
    let mut rows = [blank_row(); 1];
    let mut places = [BLANK; 8];
    let mut day = Monitor::<Secrecy<GradeLabel>>::new(&objects, &mut rows, &mut places);
    assert_eq!(rt; day.enrol(plain(5), plain(0))?, 0);
    gives(&rt, &mut day, ask(0, Kind::Write, 3), Verdict::Granted)?;
    gives(&rt, &mut day, ask(0, Kind::Read, 4), Verdict::History)?;
    gives(&rt, &mut day, ask(0, Kind::Read, 3), Verdict::Granted)?;
    assert_eq!(rt; day.row(0)?.current, plain(3));
    Ok(())
}

#[test]
fn secrecy_by_categories(rt: HostRuntime) -> Result<(), Fail> {
    let first = GradeLabel::from_map(1, &[0x80]);
    let ninth = GradeLabel::from_map(2, &[0x00, 0x40]);
    let objects = [first, ninth];
    let mut rows = [blank_row(); 1];
    let mut places = [BLANK; 8];
    let mut day = Monitor::<Secrecy<GradeLabel>>::new(&objects, &mut rows, &mut places);
    let both = GradeLabel::from_map(2, &[0x80, 0x40]);
    assert_eq!(rt; day.enrol(both, GradeLabel::low())?, 0);
    gives(&rt, &mut day, ask(0, Kind::Read, 0), Verdict::Granted)?;
    gives(&rt, &mut day, ask(0, Kind::Write, 1), Verdict::History)
}

#[test]
fn integrity_around_the_clearance(rt: HostRuntime) -> Result<(), Fail> {
    let objects = grades();
    let mut rows = [blank_row(); 1];
    let mut places = [BLANK; 8];
    let mut day = Monitor::<Integrity<GradeLabel>>::new(&objects, &mut rows, &mut places);
    assert_eq!(rt; day.enrol(plain(5), plain(5))?, 0);
    gives(&rt, &mut day, ask(0, Kind::Read, 3), Verdict::Granted)?;
    gives(&rt, &mut day, ask(0, Kind::Write, 4), Verdict::History)?;
    gives(&rt, &mut day, ask(0, Kind::Write, 3), Verdict::Granted)?;
    gives(&rt, &mut day, ask(0, Kind::Write, 6), Verdict::Clearance)
}

#[test]
fn enrolments_are_refused(rt: HostRuntime) {
    let objects = grades();
    let mut rows = [blank_row(); 1];
    let mut places = [BLANK; 1];
    let mut day = Monitor::<Secrecy<GradeLabel>>::new(&objects, &mut rows, &mut places);
    assert_eq!(rt;
        day.request(ask(0, Kind::Read, 2)),
        Err(Refusal::NotEnrolled)
    );
    assert_eq!(rt; day.enrol(plain(2), plain(3)), Err(Refusal::NotDominated));
    assert_eq!(rt; Refusal::NotDominated.number(), 4);
    assert_eq!(rt; day.enrol(plain(2), plain(2)), Ok(0));
    // No row is free, and that comes before the start label.
    assert_eq!(rt; day.enrol(plain(2), plain(3)), Err(Refusal::NoFreeRow));
    assert_eq!(rt;
        day.request(ask(0, Kind::Read, 7)),
        Err(Refusal::UnknownObject)
    );
}

#[test]
fn a_full_log_leaves_the_marks(rt: HostRuntime) -> Result<(), Fail> {
    let objects = grades();
    let mut rows = [blank_row(); 1];
    let mut places = [BLANK; 1];
    let mut day = Monitor::<Secrecy<GradeLabel>>::new(&objects, &mut rows, &mut places);
    assert_eq!(rt; day.enrol(plain(2), plain(2)), Ok(0));
    assert_eq!(rt;
        day.request(ask(0, Kind::Read, 2)),
        Ok((Verdict::Granted, 0))
    );
    assert_eq!(rt;
        day.request(ask(0, Kind::Write, 3)),
        Err(Refusal::NoFreePlace)
    );
    assert_eq!(rt; day.row(0)?.out_low, GradeLabel::high());
    assert_eq!(rt; day.entries().len(), 1);
    Ok(())
}

#[test]
fn a_closed_session_stays_closed(rt: HostRuntime) -> Result<(), Fail> {
    let objects = grades();
    let mut rows = [blank_row(); 1];
    let mut places = [BLANK; 1];
    let mut day = Monitor::<Secrecy<GradeLabel>>::new(&objects, &mut rows, &mut places);
    assert_eq!(rt; day.enrol(plain(2), plain(2)), Ok(0));
    assert_eq!(rt; day.close(1), Err(Refusal::NotEnrolled));
    assert_eq!(rt; day.close(0), Ok(()));
    assert_eq!(rt; day.close(0), Err(Refusal::Closed));
    assert_eq!(rt; day.request(ask(0, Kind::Read, 2)), Err(Refusal::Closed));
    assert_eq!(rt; day.row(0)?.clearance, plain(2));
    Ok(())
}
