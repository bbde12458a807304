//! What a record of a batch comes to, and the record that says so.
ghost use Rattle.std.specs.Prelude.{◌≡◌, ◌++◌, Some, OnOk};
ghost use Rattle.faults.specs.declared.layers.RecordCause.TheVariants.{Field};
ghost use Rattle.answers.specs.Answers.{refusal_number, verdict_word, answer_text, refusal_text, output_of};
ghost use Rattle.answers.specs.declared.outcomes.BatchRefusal.TheVariants as refused;

use faults::{FieldFault, RecordCause};
use policies::Verdict;
use reference::Refusal;
use std::alloc::{AllocError, Global};
use std::fmt;

/// What an accepted record did.
#[derive(Clone, Copy)]
pub enum Answer {
    /// The policy is chosen.
    Policy,
    /// An object was added, with this number.
    Object(usize),
    /// A session was started, with this number.
    Session(usize),
    /// A request was decided, and logged at this place.
    Decided(Verdict, usize),
    /// The session of this number was closed.
    Closed(usize),
}

/// Why a record is refused.
#[derive(Clone, Copy)]
pub enum BatchRefusal {
    /// The record is wrong, or the tag of one of its labels.
    Record(RecordCause),
    /// The record is out of place.
    OutOfPlace,
    /// There is no place for another object.
    NoObjectPlace,
    /// The monitor refused the call.
    Call(Refusal),
}

impl From<RecordCause> for BatchRefusal {
    ghost from_gives = { λ f r. r ≡ refused.Record f };

    fn from(cause: RecordCause) -> BatchRefusal {
        BatchRefusal::Record(cause)
    }
}

impl From<FieldFault> for BatchRefusal {
    ghost from_gives = { λ f r. r ≡ refused.Record (Field f) };

    fn from(fault: FieldFault) -> BatchRefusal {
        BatchRefusal::Record(RecordCause::Field(fault))
    }
}

impl From<Refusal> for BatchRefusal {
    ghost from_gives = { λ f r. r ≡ refused.Call f };

    fn from(refusal: Refusal) -> BatchRefusal {
        BatchRefusal::Call(refusal)
    }
}

// Numbers, since the project lists its refusals by numbers.
const OUT_OF_PLACE: u8 = 11;

const NO_PLACE: u8 = 5;

impl BatchRefusal {
    /// The number by which the refusal is known.
    pub fn number(self) -> u8
        ensures { result ≡ refusal_number self }
    {
        match self {
            BatchRefusal::Record(fault) => fault.number(),
            BatchRefusal::OutOfPlace => OUT_OF_PLACE,
            BatchRefusal::NoObjectPlace => NO_PLACE,
            BatchRefusal::Call(call) => call.number(),
        }
    }
}

// The word for what a policy decided: the output's, and no way for a verdict to print itself.
fn verdict_word(verdict: Verdict) -> &'static str
    ensures { result.now ≡ verdict_word verdict }
{
    match verdict {
        Verdict::Granted => "granted",
        Verdict::Clearance => "clearance",
        Verdict::History => "history",
    }
}

/// A word and a number, as `granted,3`.
impl fmt::Display for Answer {
    ghost output = { λ answer. Some (answer_text answer) };

    #[tactic(auto, using(std::proofs::lemmas::Fmt::decimal_digit))]
    fn fmt<W: fmt::Write>(&self, f: &mut fmt::Formatter<W>) -> fmt::Result {
        match self {
            Answer::Policy => write!(f, "policy,0"),
            Answer::Object(number) => write!(f, "object,{number}"),
            Answer::Session(number) => write!(f, "session,{number}"),
            Answer::Decided(verdict, number) => {
                let word = verdict_word(*verdict);
                write!(f, "{word},{number}")
            }
            Answer::Closed(number) => write!(f, "closed,{number}"),
        }
    }
}

/// A word and the refusal's number, as `refused,11`.
impl fmt::Display for BatchRefusal {
    ghost output = { λ refusal. Some (refusal_text refusal) };

    fn fmt<W: fmt::Write>(&self, f: &mut fmt::Formatter<W>) -> fmt::Result {
        let number = self.number();
        write!(f, "refused,{number}")
    }
}

/// Writes the record that says what the record at a place came to.
#[tactic(auto, unfolding(crate::specs::Answers::output_of))]
pub fn put(
    heap: Global,
    out: &mut Vec<u8>,
    place: usize,
    outcome: Result<Answer, BatchRefusal>,
) -> Result<(), AllocError>
    ensures { OnOk result (out.new.items ≡ out.old.items ++ output_of place outcome) }
{
    let text = match outcome {
        Ok(answer) => format!(in heap; "{place},{answer}\r\n")?,
        Err(refusal) => format!(in heap; "{place},{refusal}\r\n")?,
    };
    out.extend_from_slice(text.as_bytes())
}
