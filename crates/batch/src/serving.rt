//! Records that are put to a monitor, once the first session is there.
ghost use Rattle.std.specs.Prelude.{◌≡◌, ◌++◌, IfOk, OnOk};
ghost use Rattle.records.specs.Lines.{record_of};
ghost use Rattle.answers.specs.Answers.{output_of};
ghost use Rattle.batch.specs.Serving.{serve_answer, serve_after, line_answer, line_after, serving};
ghost use Rattle.batch.specs.Run.{finished};

use crate::lines::Line;
use crate::run::{Outcome, Run};
use answers::{Answer, BatchRefusal};
use labels::GradeLabel;
use monitor::Monitor;
use policies::Policy;
use records::{Record, read_record};
use std::alloc::AllocError;

// Carries out a record. By a match, so that no record is left out.
fn serve<P: Policy<Label = GradeLabel>>(monitor: &mut Monitor<'_, P>, record: Record) -> Outcome
    ensures answer { result ≡ serve_answer P.Policy.model monitor.old «record» }
    ensures after { monitor.new ≡ serve_after P.Policy.model monitor.old «record» }
{
    match record {
        Record::Policy(_) | Record::Object(_) => Err(BatchRefusal::OutOfPlace),
        Record::Session { clearance, start } => {
            let session = monitor.enrol(clearance?, start?)?;
            Ok(Answer::Session(session))
        }
        Record::Request(request) => {
            let (verdict, place) = monitor.request(request)?;
            Ok(Answer::Decided(verdict, place))
        }
        Record::Close(session) => {
            monitor.close(session)?;
            Ok(Answer::Closed(session))
        }
    }
}

// Carries out the record of a line.
fn answer_line<P: Policy<Label = GradeLabel>>(monitor: &mut Monitor<'_, P>, line: &[u8]) -> Outcome
    ensures answer { result ≡ line_answer P.Policy.model monitor.old (record_of line.now) }
    ensures after { monitor.new ≡ line_after P.Policy.model monitor.old (record_of line.now) }
{
    serve(monitor, read_record(line)?)
}

impl Run<'_> {
    /// Carries out the record of a line, and writes what it comes to.
    pub(crate) fn serve_line<P: Policy<Label = GradeLabel>>(
        &mut self,
        monitor: &mut Monitor<'_, P>,
        line: Line<'_>,
    ) -> Result<(), AllocError>
        ensures written { OnOk result (self.new.out.items ≡ self.old.out.items ++ output_of line.entry.place (line_answer P.Policy.model monitor.old (record_of line.entry.octets.now))) }
        ensures after { monitor.new ≡ line_after P.Policy.model monitor.old (record_of line.entry.octets.now) }
        ensures left { self.new.lines ≡ self.old.lines }
    {
        let outcome = answer_line(monitor, line.octets);
        self.put(line.place, outcome)
    }

    /// Carries out the records of the lines that are left, and writes what each comes to.
    pub(crate) fn serve<P: Policy<Label = GradeLabel>>(
        mut self,
        monitor: &mut Monitor<'_, P>,
    ) -> Result<Vec<u8>, AllocError>
        ensures { IfOk result (λ out. out.items ≡ finished (serving P.Policy.model monitor.old) self.entry) }
    {
        // No `for`, since the body writes to the run whose line it takes.
        while let Some(line) = self.lines.next() {
            self.serve_line(monitor, line)?;
        }
        Ok(self.out)
    }
}
