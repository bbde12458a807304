//! The words of a record.
ghost use Rattle.std.specs.Prelude.{◌≡◌};
ghost use Rattle.records.specs.Words.{word_of, policy_of};

use crate::values::PolicyName;
use faults::FieldCause;
use policies::Kind;

// What a record is, by its first field.
#[derive(Clone, Copy)]
pub(crate) enum Word {
    Policy,
    Object,
    Session,
    Request(Kind),
    Close,
}

impl TryFrom<&[u8]> for Word {
    type Error = FieldCause;

    ghost try_from_gives = { λ text read. read ≡ word_of text.now };

    #[tactic(auto, using(crate::proofs::Spelling::long_words), unfolding(crate::specs::Words::says))]
    fn try_from(text: &[u8]) -> Result<Word, FieldCause> {
        match text {
            b"policy" => Ok(Word::Policy),
            b"object" => Ok(Word::Object),
            b"session" => Ok(Word::Session),
            b"read" => Ok(Word::Request(Kind::Read)),
            b"write" => Ok(Word::Request(Kind::Write)),
            b"both" => Ok(Word::Request(Kind::Both)),
            b"close" => Ok(Word::Close),
            _ => Err(FieldCause::Word),
        }
    }
}

impl TryFrom<&[u8]> for PolicyName {
    type Error = FieldCause;

    ghost try_from_gives = { λ text read. read ≡ policy_of text.now };

    #[tactic(auto, using(crate::proofs::Spelling::policy_names), unfolding(crate::specs::Words::says))]
    fn try_from(text: &[u8]) -> Result<PolicyName, FieldCause> {
        match text {
            b"confidentiality" => Ok(PolicyName::Confidentiality),
            b"integrity" => Ok(PolicyName::Integrity),
            _ => Err(FieldCause::Word),
        }
    }
}
