//! The monitor: decides each request by the session's marks, and logs the verdict.
ghost use Rattle.std.specs.Prelude.{◌≡◌, reverse};
ghost use Rattle.monitor.specs.View.{Counted, made_over, judging, enrol_answer, enrol_after, request_answer, request_after, close_answer, close_after, row_answer};

use crate::tables::{SessionRow, SessionTable};
use access_log::Log;
use policies::{Decision, Policy, Verdict};
use reference::{Entry, Refusal, Request, SessionState};
use std::marker::Model;

const OBJECT_LIMIT: usize = 4096;

const ROW_LIMIT: usize = 1024;

const PLACE_LIMIT: usize = 65536;

/// A monitor over the caller's object labels, session rows and log places.
#[derive(Drop)]
pub struct Monitor<'a, P: Policy> {
    objects: &'a [P::Label],
    sessions: SessionTable<'a, P::Marks>,
    log: Log<'a>,
}

impl<'a, P: Policy> Model for Monitor<'a, P> {
    ghost use Rattle.monitor.specs.View.{View};

    ghost Value = { View P.Label P.Marks };

    ghost use Rattle.monitor.specs.MonitorView.{view_of};

    ghost view = { view_of };
}

impl<'a, P: Policy> Monitor<'a, P> {
    // Three slices and no struct of them, since a caller lends each on its own, as the project names them.
    /// A monitor with no session and no entry, whatever the slices hold. It uses the first 4,096 objects, 1,024 rows
    /// and 65,536 places where there are more.
    pub fn new(
        objects: &'a [P::Label],
        rows: &'a mut [SessionRow<P::Marks>],
        places: &'a mut [Entry],
    ) -> Monitor<'a, P>
        ensures made { result ≡ made_over objects.now rows.old places.old }
        ensures counted { Counted result }
    {
        let object_count = objects.len().min(OBJECT_LIMIT);
        let row_count = rows.len().min(ROW_LIMIT);
        let place_count = places.len().min(PLACE_LIMIT);
        let sessions = SessionTable::new(&mut rows[..row_count]);
        let log = Log::new(&mut places[..place_count]);
        Monitor {
            objects: &objects[..object_count],
            sessions,
            log,
        }
    }

    /// Starts the next session, and says its number.
    pub fn enrol(&mut self, clearance: P::Label, start: P::Label) -> Result<usize, Refusal>
        ensures answer { result ≡ enrol_answer P.model self.old clearance start }
        ensures after { self.new ≡ enrol_after P.model self.old clearance start }
        ensures counted_before { Counted self.old }
        ensures counted { Counted self.new }
    {
        self.sessions.check_free()?;
        let marks = P::start(clearance, start)?;
        Ok(self.sessions.add(marks))
    }

    // What the policy decides on a request.
    fn judge(&self, request: Request) -> Result<Decision<P::Marks>, Refusal>
        ensures { result ≡ judging P.model self.now request }
    {
        let marks = self.sessions.open_marks(request.session)?;
        let label = self
            .objects
            .get(request.object)
            .ok_or(Refusal::UnknownObject)?;
        Ok(P::decide(marks, *label, request.kind)?)
    }

    /// Decides a request and logs the verdict; says the verdict and its place in the log.
    pub fn request(&mut self, request: Request) -> Result<(Verdict, usize), Refusal>
        ensures answer { result ≡ request_answer P.model self.old request }
        ensures after { self.new ≡ request_after P.model self.old request }
        ensures counted_before { Counted self.old }
        ensures counted { Counted self.new }
    {
        let decision = self.judge(request)?;
        let verdict = decision.verdict;
        let place = self.log.append(Entry::new(request, verdict))?;
        self.sessions
            .put(request.session, decision.marks, SessionState::Open);
        Ok((verdict, place))
    }

    /// Ends a session. Its marks stay readable.
    pub fn close(&mut self, session: usize) -> Result<(), Refusal>
        ensures answer { result ≡ close_answer P.model self.old session }
        ensures after { self.new ≡ close_after P.model self.old session }
        ensures counted_before { Counted self.old }
        ensures counted { Counted self.new }
    {
        let marks = self.sessions.open_marks(session)?;
        self.sessions.put(session, marks, SessionState::Closed);
        Ok(())
    }

    /// The marks of a session, open or closed.
    pub fn row(&self, session: usize) -> Result<P::Marks, Refusal>
        ensures answer { result ≡ row_answer P.model self.now session }
        ensures counted { Counted self.now }
    {
        let found = self.sessions.row(session)?;
        Ok(found.marks)
    }

    /// The entries of the log, the oldest first.
    pub fn entries(&self) -> &[Entry]
        ensures history { reverse result.now ≡ self.now.history }
        ensures counted { Counted self.now }
    {
        self.log.entries()
    }
}
