//! The session table: one container for the marks of every policy.
ghost use Rattle.std.specs.Prelude.{◌≡◌, ◌<◌, [], ◌∷◌, ◌++◌, length, drop, slice_set, IfOk};
ghost use Rattle.std.specs.List.{slice_get};
ghost use Rattle.std.specs.Option.{ok_or};
ghost use Rattle.reference.specs.Results.{free};
ghost use Rattle.reference.specs.declared.sessions.SessionState.TheVariants as state;
ghost use Rattle.reference.specs.declared.refusals.Refusal.TheVariants as refusal;
ghost use Rattle.monitor.specs.Rows.{row, row_count, open_marks};

use reference::{Refusal, SessionState};
use std::marker::Model;

// No flag with a value beside it: the marks of a closed session stay readable.
/// The record of one session.
#[derive(Clone, Copy)]
pub struct SessionRow<M> {
    pub marks: M,
    pub state: SessionState,
}

// A count beside a lent slice, as the project wants it: no heap, and rows written whole.
/// The first `enrolled` of the rows are those of the sessions, by their numbers. Rows are not reused.
#[derive(Drop)]
pub struct SessionTable<'a, M> {
    rows: &'a mut [SessionRow<M>],
    enrolled: usize,
}

impl<'a, M> Model for SessionTable<'a, M> {
    ghost use Rattle.monitor.specs.Rows.{Rows};

    ghost Value = { Rows M };

    ghost use Rattle.monitor.specs.TableRows.{rows_of, Within};

    ghost view = { rows_of };

    ghost invariant = { Within };
}

// The row of a session, among those that are in use.
fn row_at<M: Copy>(rows: &[SessionRow<M>], session: usize) -> Result<SessionRow<M>, Refusal>
    ensures { result ≡ ok_or (slice_get rows.now session) refusal.NotEnrolled }
{
    rows.get(session).copied().ok_or(Refusal::NotEnrolled)
}

fn put_row<M: Copy>(rows: &mut [SessionRow<M>], at: usize, row: SessionRow<M>)
    requires { at < length rows.old }
    ensures { rows.new ≡ slice_set rows.old at row }
{
    rows[at] = row;
}

impl<'a, M: Copy> SessionTable<'a, M> {
    /// A table with no session, whatever the rows hold.
    pub(crate) fn new(rows: &'a mut [SessionRow<M>]) -> SessionTable<'a, M>
        ensures sessions { result.sessions ≡ [] }
        ensures spare { result.spare ≡ rows.old }
        ensures rows { row_count result ≡ length rows.old }
    {
        SessionTable { rows, enrolled: 0 }
    }

    /// The row of an enrolled session.
    pub(crate) fn row(&self, session: usize) -> Result<SessionRow<M>, Refusal>
        ensures { result ≡ ok_or (slice_get self.now.sessions session) refusal.NotEnrolled }
    {
        row_at(&self.rows[..self.enrolled], session)
    }

    /// The marks of an open session, which is one that is enrolled.
    pub(crate) fn open_marks(&self, session: usize) -> Result<M, Refusal>
        ensures answer { result ≡ open_marks self.now.sessions session }
        ensures enrolled { IfOk result (λ _. session < length self.now.sessions) }
    {
        let found = self.row(session)?;
        match found.state {
            SessionState::Open => Ok(found.marks),
            SessionState::Closed => Err(Refusal::Closed),
        }
    }

    /// Whether there is a row for one more session.
    pub(crate) fn check_free(&self) -> Result<(), Refusal>
        ensures { result ≡ free (length self.now.sessions) (row_count self.now) refusal.NoFreeRow }
    {
        if self.enrolled < self.rows.len() {
            Ok(())
        } else {
            Err(Refusal::NoFreeRow)
        }
    }

    /// Starts the next session with these marks, and says its number.
    pub(crate) fn add(&mut self, marks: M) -> usize
        requires { length self.old.sessions < row_count self.old }
        ensures number { result ≡ length self.old.sessions }
        ensures sessions { self.new.sessions ≡ self.old.sessions ++ row marks state.Open ∷ [] }
        ensures spare { self.new.spare ≡ drop 1 self.old.spare }
        ensures rows { row_count self.new ≡ row_count self.old }
    {
        let at = self.enrolled;
        let started = SessionRow {
            marks,
            state: SessionState::Open,
        };
        put_row(self.rows, at, started);
        self.enrolled = at + 1;
        at
    }

    /// Writes the row of an enrolled session, whole.
    pub(crate) fn put(&mut self, session: usize, marks: M, state: SessionState)
        requires { session < length self.old.sessions }
        ensures sessions { self.new.sessions ≡ slice_set self.old.sessions session (row marks state) }
        ensures spare { self.new.spare ≡ self.old.spare }
        ensures rows { row_count self.new ≡ row_count self.old }
    {
        put_row(self.rows, session, SessionRow { marks, state });
    }
}
