//! A day under secrecy and integrity at once: rival brokers, and the grade of the figures.
use crate::days::{BLANK, ask, blank_marks, gives};
use labels::{GradeLabel, RivalLabel, UnknownBroker};
use monitor::{Monitor, SessionRow};
use orders::Pair;
use policies::{Kind, Verdict};
use reference::{Refusal, SessionState};
use rules::{Joint, SixLabels};
use std::test::Fail;

// A broker's figures of a grade; broker 0 is none.
fn figures(broker: u8, grade: u8) -> Result<Pair<RivalLabel, GradeLabel>, UnknownBroker> {
    Ok(Pair {
        first: RivalLabel::try_from([broker, 0, 0, 0, 0, 0, 0, 0])?,
        second: GradeLabel::from_map(grade, &[]),
    })
}

fn blank_pair() -> SessionRow<Pair<SixLabels<RivalLabel>, SixLabels<GradeLabel>>> {
    SessionRow {
        marks: Pair {
            first: blank_marks(),
            second: blank_marks(),
        },
        state: SessionState::Open,
    }
}

#[test]
fn both_parts_have_to_grant(rt: HostRuntime) -> Result<(), Fail> {
    let objects = [
        figures(4, 3)?,
        figures(4, 4)?,
        figures(0, 6)?,
        figures(7, 2)?,
    ];
    let mut rows = [blank_pair(); 1];
    let mut places = [BLANK; 8];
    let mut day = Monitor::<Joint<RivalLabel, GradeLabel>>::new(&objects, &mut rows, &mut places);
    let clearance = figures(4, 5)?;
    assert_eq!(rt;
        day.enrol(clearance, figures(7, 5)?),
        Err(Refusal::NotDominated)
    );
    assert_eq!(rt;
        day.enrol(clearance, figures(0, 6)?),
        Err(Refusal::NotDominated)
    );
    assert_eq!(rt; day.enrol(clearance, figures(0, 5)?), Ok(0));
    gives(&rt, &mut day, ask(0, Kind::Read, 0), Verdict::Granted)?;
    // Secrecy grants and integrity denies: none of the twelve labels moves.
    let before = day.row(0)?;
    gives(&rt, &mut day, ask(0, Kind::Write, 1), Verdict::History)?;
    assert_eq!(rt; day.row(0)?, before);
    // History in one part and clearance in the other, either way round.
    gives(&rt, &mut day, ask(0, Kind::Write, 2), Verdict::Clearance)?;
    gives(&rt, &mut day, ask(0, Kind::Write, 0), Verdict::Granted)?;
    gives(&rt, &mut day, ask(0, Kind::Read, 3), Verdict::Clearance)?;
    let after = day.row(0)?;
    assert_eq!(rt; after.first.out_low, figures(4, 0)?.first);
    assert_eq!(rt; after.second.out_high, figures(0, 3)?.second);
    Ok(())
}
