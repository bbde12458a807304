//! Days over the rival order, and over pairs of grades and rivals.
use crate::days::{BLANK, ask, blank_row, gives};
use labels::{GradeLabel, RivalLabel, UnknownBroker};
use monitor::Monitor;
use orders::{LabelOrder, Pair};
use policies::{Kind, Verdict};
use rules::Secrecy;
use std::test::Fail;

// A broker of the first class and one of the second; 0 is none.
fn brokers(class0: u8, class1: u8) -> Result<RivalLabel, UnknownBroker> {
    RivalLabel::try_from([class0, class1, 0, 0, 0, 0, 0, 0])
}

#[test]
fn brokers_are_known_up_to_conflict(rt: HostRuntime) {
    let refused = Err(UnknownBroker { class: 2 });
    assert_eq!(rt;
        RivalLabel::try_from([0, 251, 252, 255, 0, 0, 0, 0]),
        refused
    );
    assert_eq!(rt; UnknownBroker { class: 2 }.number(), 12);
    assert_eq!(rt; RivalLabel::try_from([251; 8]), Ok(RivalLabel::high()));
    assert_eq!(rt; RivalLabel::try_from([0; 8]), Ok(RivalLabel::low()));
}

#[test]
fn rivals_of_one_class_and_of_two(rt: HostRuntime) -> Result<(), Fail> {
    let objects = [
        brokers(4, 0)?,
        brokers(7, 0)?,
        brokers(0, 7)?,
        brokers(4, 7)?,
    ];
    let mut rows = [blank_row(); 2];
    let mut places = [BLANK; 8];
    let mut day = Monitor::<Secrecy<RivalLabel>>::new(&objects, &mut rows, &mut places);
    assert_eq!(rt; day.enrol(RivalLabel::high(), RivalLabel::low())?, 0);
    gives(&rt, &mut day, ask(0, Kind::Read, 0), Verdict::Granted)?;
    gives(&rt, &mut day, ask(0, Kind::Read, 1), Verdict::Granted)?;
    gives(&rt, &mut day, ask(0, Kind::Write, 0), Verdict::History)?;
    assert_eq!(rt; day.row(0)?.in_high, brokers(251, 0)?);
    assert_eq!(rt; day.enrol(RivalLabel::high(), RivalLabel::low())?, 1);
    gives(&rt, &mut day, ask(1, Kind::Read, 0), Verdict::Granted)?;
    gives(&rt, &mut day, ask(1, Kind::Read, 2), Verdict::Granted)?;
    gives(&rt, &mut day, ask(1, Kind::Write, 3), Verdict::Granted)
}

#[test]
fn pairs_of_grades_and_rivals(rt: HostRuntime) -> Result<(), Fail> {
    let secret = GradeLabel::from_map(2, &[]);
    let objects = [
        Pair {
            first: GradeLabel::low(),
            second: brokers(4, 0)?,
        },
        Pair {
            first: secret,
            second: brokers(7, 0)?,
        },
        Pair {
            first: secret,
            second: RivalLabel::high(),
        },
    ];
    let mut rows = [blank_row(); 1];
    let mut places = [BLANK; 8];
    let mut day = Monitor::<Secrecy<Pair<GradeLabel, RivalLabel>>>::new(
        &objects,
        &mut rows,
        &mut places,
    );
    let clearance = Pair {
        first: secret,
        second: brokers(251, 0)?,
    };
    assert_eq!(rt; day.enrol(clearance, Pair::low())?, 0);
    gives(&rt, &mut day, ask(0, Kind::Read, 0), Verdict::Granted)?;
    gives(&rt, &mut day, ask(0, Kind::Read, 2), Verdict::Clearance)?;
    gives(&rt, &mut day, ask(0, Kind::Write, 1), Verdict::History)?;
    gives(&rt, &mut day, ask(0, Kind::Write, 2), Verdict::Granted)
}
