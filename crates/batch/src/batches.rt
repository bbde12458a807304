//! A whole batch: from its octets to those that are written.
ghost use Rattle.std.specs.Prelude.{◌≡◌, IfOk};
ghost use Rattle.records.specs.Lines.{record_of};
ghost use Rattle.batch.specs.Batch.{choice, under, waiting, batch_of};
ghost use Rattle.batch.specs.Run.{finished};

use crate::run::Run;
use answers::{Answer, BatchRefusal};
use labels::GradeLabel;
use records::{PolicyName, Record, read_record};
use rules::{Integrity, Secrecy};
use std::alloc::{AllocError, Global};

// The policy that a line chooses.
fn choose(line: &[u8]) -> Result<PolicyName, BatchRefusal>
    ensures { result ≡ choice (record_of line.now) }
{
    match read_record(line)? {
        Record::Policy(name) => Ok(name),
        _ => Err(BatchRefusal::OutOfPlace),
    }
}

impl Run<'_> {
    // Takes the lines that are left, under the policy of this name. A match, since a policy is a type.
    fn follow(self, name: PolicyName) -> Result<Vec<u8>, AllocError>
        ensures { IfOk result (λ out. out.items ≡ finished (under name) self.entry) }
    {
        match name {
            PolicyName::Confidentiality => self.load::<Secrecy<GradeLabel>>(),
            PolicyName::Integrity => self.load::<Integrity<GradeLabel>>(),
        }
    }

    // Takes lines until one chooses the policy, and then all others under it.
    fn wait(mut self) -> Result<Vec<u8>, AllocError>
        ensures { IfOk result (λ out. out.items ≡ finished waiting self.entry) }
    {
        // No `for`, since the body writes to the run whose line it takes.
        while let Some(line) = self.lines.next() {
            match choose(line.octets) {
                Ok(name) => {
                    self.put(line.place, Ok(Answer::Policy))?;
                    return self.follow(name);
                }
                Err(refusal) => self.put(line.place, Err(refusal))?,
            }
        }
        Ok(self.out)
    }
}

/// Carries out the records of an input, and makes the octets that are written for them: one record for each.
#[tactic(auto, unfolding(crate::specs::Batch::batch_of))]
pub fn run_batch(heap: Global, input: &[u8]) -> Result<Vec<u8>, AllocError>
    ensures { IfOk result (λ v. v.items ≡ batch_of input.now) }
{
    Run::new(heap, input).wait()
}
