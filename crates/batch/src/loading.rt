//! Records that come before the first session: objects are gathered, and other records refused.
ghost use Rattle.std.specs.Prelude.{◌≡◌, [], IfOk, IfNone, OnOk};
ghost use Rattle.records.specs.Lines.{record_of};
ghost use Rattle.batch.specs.Loading.{object_answer, object_after, start_answer, loaded_of, load_after, loading};
ghost use Rattle.batch.specs.Batch.{blank_rows, blank_places};
ghost use Rattle.batch.specs.Run.{finished};

use crate::blanks::{blank_places, blank_rows};
use crate::run::{Outcome, Run};
use answers::{Answer, BatchRefusal};
use faults::RecordCause;
use labels::GradeLabel;
use monitor::Monitor;
use policies::Policy;
use records::{LabelField, Record, read_record};
use reference::Refusal;
use rules::SixLabels;
use std::alloc::AllocError;

const OBJECT_PLACES: usize = 256;

// Adds an object, if its tag is right and there is a place.
fn add_object(objects: &mut Vec<GradeLabel>, label: LabelField) -> Result<Outcome, AllocError>
    ensures outcome { IfOk result (λ o. o ≡ object_answer objects.old.items label) }
    ensures objects { OnOk result (objects.new.items ≡ object_after objects.old.items label) }
{
    let count = objects.len();
    match label {
        Err(fault) => Ok(Err(BatchRefusal::from(fault))),
        Ok(_) if count >= OBJECT_PLACES => Ok(Err(BatchRefusal::NoObjectPlace)),
        Ok(label) => {
            objects.push(label)?;
            Ok(Ok(Answer::Object(count)))
        }
    }
}

// Whether a record starts a session, where there is none yet.
fn check_start<P: Policy<Label = GradeLabel>>(
    record: Result<Record, RecordCause>,
) -> Result<(), BatchRefusal>
    ensures { result ≡ start_answer P.Policy.model «record» }
{
    match record? {
        Record::Policy(_) | Record::Object(_) => Err(BatchRefusal::OutOfPlace),
        Record::Session { clearance, start } => {
            P::start(clearance?, start?).map_err(Refusal::from)?;
            Ok(())
        }
        Record::Request(_) | Record::Close(_) => Err(BatchRefusal::Call(Refusal::NotEnrolled)),
    }
}

// Takes a line: adds its object, or refuses it. None: it starts the first session.
fn load_line<P: Policy<Label = GradeLabel>>(
    objects: &mut Vec<GradeLabel>,
    line: &[u8],
) -> Result<Option<Outcome>, AllocError>
    ensures outcome { IfOk result (λ o. o ≡ loaded_of P.Policy.model objects.old.items (record_of line.now)) }
    ensures objects { OnOk result (objects.new.items ≡ load_after objects.old.items (record_of line.now)) }

    // A line that starts a session adds no object.
    ensures starts { IfOk result (λ o. IfNone o (objects.new.items ≡ objects.old.items)) }
{
    match read_record(line) {
        Ok(Record::Object(label)) => Ok(Some(add_object(objects, label)?)),
        record => Ok(check_start::<P>(record).err().map(Err)),
    }
}

impl Run<'_> {
    /// Takes the lines that are left, under a policy: objects, until a line starts the first session, and that line and all
    /// after it with a monitor.
    pub(crate) fn load<P: Policy<Label = GradeLabel, Marks = SixLabels<GradeLabel>>>(
        mut self,
    ) -> Result<Vec<u8>, AllocError>
        ensures { IfOk result (λ out. out.items ≡ finished (loading P.Policy.model blank_rows blank_places []) self.entry) }
    {
        let mut objects = Vec::new(self.heap);
        // No `for`, since the body writes to the run whose line it takes.
        while let Some(line) = self.lines.next() {
            match load_line::<P>(&mut objects, line.octets)? {
                Some(outcome) => self.put(line.place, outcome)?,
                None => {
                    let mut rows = blank_rows();
                    let mut places = blank_places();
                    let mut monitor = Monitor::<P>::new(&objects, &mut rows, &mut places);
                    self.serve_line(&mut monitor, line)?;
                    return self.serve(&mut monitor);
                }
            }
        }
        Ok(self.out)
    }
}
