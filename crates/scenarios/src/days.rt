//! What the days have in common: requests, the verdicts that are wanted, and rows and places to start from.
use monitor::{Monitor, SessionRow};
use orders::LabelOrder;
use policies::{Kind, Policy, Verdict};
use reference::{Entry, Request, SessionState};
use rules::SixLabels;
use std::process::Abort;
use std::test::Fail;

pub(crate) const BLANK: Entry = Entry {
    session: 7,
    object: 7,
    kind: Kind::Both,
    verdict: Verdict::Granted,
};

pub(crate) fn ask(session: usize, kind: Kind, object: usize) -> Request {
    Request {
        session,
        object,
        kind,
    }
}

/// Puts a request, whose verdict is the one that is wanted.
pub(crate) fn gives<P: Policy>(
    rt: &impl Abort,
    monitor: &mut Monitor<'_, P>,
    request: Request,
    wanted: Verdict,
) -> Result<(), Fail> {
    let (verdict, _) = monitor.request(request)?;
    assert_eq!(rt; verdict, wanted);
    Ok(())
}

/// A row for a session, with what a monitor has to pass over: an open session at LOW.
pub(crate) fn blank_row<L: LabelOrder>() -> SessionRow<SixLabels<L>> {
    SessionRow {
        marks: blank_marks(),
        state: SessionState::Open,
    }
}

// The label six times, as in the batch's rows.
pub(crate) fn blank_marks<L: LabelOrder>() -> SixLabels<L> {
    let low = L::low();
    SixLabels {
        clearance: low,
        current: low,
        in_low: low,
        in_high: low,
        out_low: low,
        out_high: low,
    }
}
